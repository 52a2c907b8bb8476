// What a cell of the links holds of a node: its first child and its next sibling.
ghost use Rattle.std.specs.Prelude.{◌≡◌, Bool, Some, Option, ℕ};
ghost use Rattle.elements.specs.Order.{Strict, precedes_by, stamp_of};
ghost use Rattle.forests.specs.Forests.{Layout};
ghost use Rattle.forests.specs.Layouts.{Consistent};

use elements::Ordered;

// `layout` says what the cells hold, and `has_room` of which nodes one more child can be taken.
pub trait ForestLink<T: Ordered + Copy>: Copy {
    ghost layout: { (le : T → T → Bool) → Layout le Self };

    ghost has_room: { Self → Type 0 };

    // `child` and `before` read alike in the impls, which no body by default can: the types of link differ in a field.
    fn child(&self) -> Option<u16>
        ensures { result ≡ (layout T.Ordered.le).child self.now };

    // The same node before other siblings.
    fn before(self, next: Option<u16>) -> Self
        ensures { result ≡ (layout T.Ordered.le).with_next self next };

    // The same node with one more child in front.
    fn over(self, kid: u16) -> Self
        requires { has_room self }
        ensures { result ≡ (layout T.Ordered.le).with_child self (Some kid) };

    ghost consistent: { Consistent (layout T.Ordered.le) };
}
