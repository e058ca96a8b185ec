// The one check of a table of ranged records: each begins no earlier than the one before it ended.

#![tactic(auto)]

ghost use Rattle.std.specs.Prelude.{◌≡◌, ℕ};
ghost use Rattle.ranged.specs.Ranges.{first_too_early, Told};

// A record that covers the numbers from `begin` up to, and without, `end`.
pub trait Ranged {
    ghost begins: { Self → ℕ };

    ghost ends: { Self → ℕ };

    fn begin(&self) -> u64
        ensures { result ≡ begins self.now };

    fn end(&self) -> u64
        ensures { result ≡ ends self.now };
}

// The place of the first record that begins before the one right before it ended.
pub fn first_too_early<R: Ranged>(records: &[R]) -> Option<usize>
    ensures value { result ≡ first_too_early R.Ranged.begins R.Ranged.ends records.now }
    ensures told { Told R.Ranged.begins R.Ranged.ends records.now result }
{
    let mut last = 0;
    for (i, record) in records.iter().enumerate() {
        if record.begin() < last {
            return Some(i);
        }
        last = record.end();
    }
    None
}
