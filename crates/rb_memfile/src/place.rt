//! What a memory file knows of the byte on its device at one place. `MemFile` keeps one for each byte.
ghost use Rattle.std.specs.Prelude.{◌≡◌};

/// What is known of a place.
#[derive(Clone, Copy, Debug, PartialEq, Eq)]
pub enum Place {
    /// The device has the byte that is read.
    Settled,
    /// It was written since the last sync.
    Dirty,
    /// A sync that failed dropped what was written: no sync writes it before it is written again.
    Lost,
}

impl Place {
    ghost use Rattle.rb_memfile.specs.Places.{after_write, after_sync, after_failure};

    /// After a write, where `same` is whether the byte is what is read there.
    pub(crate) fn written(self, same: bool) -> Place
        ensures { result ≡ after_write same self }
    {
        match (self, same) {
            (Place::Settled, true) => Place::Settled,
            _ => Place::Dirty,
        }
    }

    /// After a sync that succeeded.
    pub(crate) fn synced(self) -> Place
        ensures { result ≡ after_sync self }
    {
        match self {
            Place::Lost => Place::Lost,
            _ => Place::Settled,
        }
    }

    /// After a sync that failed.
    pub(crate) fn dropped(self) -> Place
        ensures { result ≡ after_failure self }
    {
        match self {
            Place::Settled => Place::Settled,
            _ => Place::Lost,
        }
    }
}
