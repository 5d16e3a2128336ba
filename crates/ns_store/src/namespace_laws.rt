//! Laws of namespaces that are saved and loaded.
ghost use Rattle.std.specs.Prelude.{◌≡◌, ◌≢◌, ◌⊎◌, ◌≤◌, ◌^◌, ℕ};
ghost use Rattle.base_disk.specs.Files.{Files};
ghost use Rattle.ns_tree.specs.Space.{Space};
ghost use Rattle.ns_store.specs.Saves.{Prepares};
ghost use Rattle.ns_store.specs.declared.loaded.Loaded.{Loaded};
ghost use Rattle.ns_store.specs.declared.loaded.Loaded.TheVariants as loaded;
ghost use Rattle.ns_store.specs.Loads.{SavesImage, LoadsAs, IsAnswer};

/// Once a namespace is saved, what is loaded of its txid is this namespace and txid.
pub fn a_saved_namespace_is_loaded()
    ensures { (txid : ℕ) (namespace : Space) (old new : Files) → txid ≤ 2 ^ 62
        → SavesImage txid namespace old new → LoadsAs txid namespace new }
{}

/// While a namespace is saved, what is loaded of its txid is as before or none, and of another one
/// as before.
pub fn a_load_in_a_save()
    ensures here { (txid : ℕ) (old new : Files) (answer : Loaded) → txid ≤ 2 ^ 62
        → Prepares txid old new → IsAnswer new txid answer
        → IsAnswer old txid answer ⊎ (answer ≡ loaded.NoImage) }
    ensures other { (txid other : ℕ) (old new : Files) (answer : Loaded) → txid ≤ 2 ^ 62
        → other ≤ 2 ^ 62 → other ≢ txid → Prepares txid old new → IsAnswer new other answer
        → IsAnswer old other answer }
{}
