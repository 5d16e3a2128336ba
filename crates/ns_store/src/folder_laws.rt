//! Laws of the images in a folder.
ghost use Rattle.std.specs.Prelude.{◌≡◌, ◌≢◌, ◌⊎◌, ◌≤◌, ◌^◌, ℕ, List, Some, None, Contains};
ghost use Rattle.base_disk.specs.Files.{Files};
ghost use Rattle.ns_store.specs.Images.{image_in, ListsImages};
ghost use Rattle.ns_store.specs.Saves.{Prepares, Saves, Thins};

/// While an image is saved, and after it, each other image is as it was.
pub fn others_stay_in_a_save()
    ensures before { (txid other : ℕ) (old new : Files) → txid ≤ 2 ^ 62 → other ≤ 2 ^ 62
        → other ≢ txid → Prepares txid old new → image_in new other ≡ image_in old other }
    ensures after { (txid other : ℕ) (bytes line : List ℕ) (old new : Files) → txid ≤ 2 ^ 62
        → other ≤ 2 ^ 62 → other ≢ txid → Saves txid bytes line old new
        → image_in new other ≡ image_in old other }
{}

/// While an image is saved, it counts as it was or not at all, and after it as saved.
pub fn an_image_is_saved_wholly()
    ensures before { (txid : ℕ) (old new : Files) → Prepares txid old new
        → (image_in new txid ≡ image_in old txid) ⊎ (image_in new txid ≡ None) }
    ensures after { (txid : ℕ) (bytes line : List ℕ) (old new : Files)
        → Saves txid bytes line old new
        → image_in new txid ≡ Some (record { bytes = bytes; digest = line }) }
{}

/// While images are removed, each other one is as it was.
pub fn others_stay_in_a_removal()
    ensures { (txids : List ℕ) (other : ℕ) (old new : Files)
        → ((txid : ℕ) → Contains txids txid → txid ≤ 2 ^ 62) → other ≤ 2 ^ 62
        → (Contains txids other → ⊥) → Thins txids old new
        → image_in new other ≡ image_in old other }
{}

/// A folder has one list of its images.
pub fn a_folder_has_one_list()
    ensures { (files : Files) (one other : List ℕ) → ListsImages one files → ListsImages other files
        → one ≡ other }
{}
