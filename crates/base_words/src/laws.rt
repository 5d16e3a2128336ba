//! Laws of the numbers' forms.
ghost use Rattle.std.specs.Prelude.{◌≡◌, ◌<◌, ◌≤◌, ◌^◌, ℕ};
ghost use Rattle.std.specs.Int.{w16, w32, w64};
ghost use Rattle.std.specs.Fmt.{decimal};
ghost use Rattle.base_words.specs.Fields.{IsGotBack};
ghost use Rattle.base_words.specs.Padded.{padded};

/// A number that is put into a field is got back from it.
pub fn fields_are_got_back()
    ensures two { IsGotBack w16 (2 ^ 16) }
    ensures four { IsGotBack w32 (2 ^ 32) }
    ensures eight { IsGotBack w64 (2 ^ 64) }
{}

/// Two numbers with one text of 19 digits are one.
pub fn padded_numbers_are_read_back()
    ensures { (m n : ℕ) → m ≤ 2 ^ 62 → n ≤ 2 ^ 62 → padded 19 m ≡ padded 19 n → m ≡ n }
{}

/// Two numbers with one decimal text are one.
pub fn numbers_are_read_back()
    ensures { (m n : ℕ) → m < 2 ^ 64 → n < 2 ^ 64 → decimal m ≡ decimal n → m ≡ n }
{}
