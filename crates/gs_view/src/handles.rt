ghost use Rattle.std.specs.Prelude.{◌≡◌, MatchResult};
ghost use Rattle.gs_view.specs.Lists.{StartsWith};
ghost use Rattle.gs_view.specs.Telling.{Shows};

use crate::rules::{Enters, Known, Published};
use crate::shown::Shown;
use left_right::reader;
use std::marker::Model;

pub type Inner = reader::Reader<Shown, Known, Published>;

/// What enters the two copies. Contracts see it as the snaps after the first that it knows.
#[derive(Drop)]
pub struct Handle {
    pub inner: Inner,
}

impl Model for Handle {
    ghost use Rattle.std.specs.Prelude.{List};
    ghost use Rattle.left_right.specs.Sides.{view as known_at};
    ghost use Rattle.gs_view.specs.declared.snaps.Snap.{Snap};

    ghost Value = { List Snap };

    ghost view = { λ handle. known_at handle.inner.place };
}

impl Handle {
    /// What is shown now. It is refused where the publisher has ended.
    pub fn look(self) -> Result<(Handle, Shown), Handle>
        ensures { MatchResult result
            (λ seen. StartsWith seen.0 self × Shows seen.1 seen.0)
            (λ handle. handle ≡ self) }
    {
        let Handle { inner } = self;
        match inner.enter_as::<Enters>() {
            Ok(reading) => {
                let shown = *reading.get();
                let inner = reading.leave();
                Ok((Handle { inner }, shown))
            }
            Err(inner) => Err(Handle { inner }),
        }
    }
}
