// Laws on the definitions. They do nothing when they are called.
ghost use Rattle.std.specs.Prelude.{◌≡◌, ℕ, List};
ghost use Rattle.hv_words.specs.Taken.{Asked};
ghost use Rattle.hv_driver.specs.declared.status.Status.{Status as TheStatus};
ghost use Rattle.hv_driver.specs.Answer.{Answers};

/// For an order and the bytes of its file there is one answer at most: the status and each byte of
/// the text.
pub fn answers_are_fixed()
    ensures { (asked : Asked) (bytes : List ℕ) (s other : TheStatus) (text more : List ℕ) →
        Answers asked bytes s text → Answers asked bytes other more → (other ≡ s) × (more ≡ text) }
{}
