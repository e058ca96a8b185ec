// What a layer asks of items and faults.
ghost use Rattle.std.specs.Prelude.{◌≡◌, ℕ, Bool, Option};
ghost use Rattle.places.specs.declared.Place.{Place};

use super::base::Base;

// An item that may be a gap.
pub trait Gap {
    ghost gap: { Self → Bool };

    // Whether it is a gap.
    fn is_gap(&self) -> bool
        ensures { result ≡ gap self.now };
}

// What stands at a place of a template: an item or a fault.
pub trait Placed: Sized {
    ghost line: { Self → ℕ };

    ghost shifted: { Place → Option ℕ → Self → Self };

    // The line on which it begins.
    fn line(&self) -> u16
        ensures { result ≡ line self.now };

    // The same with the base added to its places.
    fn shift(self, base: Base) -> Self
        ensures { result ≡ shifted base.place base.first self };
}
