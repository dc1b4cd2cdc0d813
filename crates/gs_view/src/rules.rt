ghost use Rattle.gs_view.specs.Rule.{Keeps, Sees, longer};
ghost use Rattle.std.specs.Prelude.{[]};

use crate::Snap;
use crate::shown::Shown;
use atomic_table::{Join, Split};
use crossbeam_utils::rule::{Outcome, Protocol};
use std::collections::LinkedList;

/// The snaps after the first that the publisher, a reader or a note knows. No value of it is made.
pub type Known = LinkedList<Snap>;

/// The rule over what is shown and over what each of them knows.
pub struct Published;

impl Protocol<Shown, Known> for Published {
    ghost holds = { Keeps };

    ghost first = { [] };
}

/// A step after which all that is published is known.
pub struct Enters;

impl Outcome<Shown, Known> for Enters {
    ghost then = { Sees };
}

/// A note knows what the publisher does, and who learns it knows the longer of two lists.
pub struct Tells;

impl Split<Known> for Tells {
    ghost left = { λ known. known };

    ghost right = { λ known. known };
}

impl Join<Known> for Tells {
    ghost both = { longer };

    ghost spent = { [] };
}
