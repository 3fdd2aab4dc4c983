//! The keys of a screen.
use sacn_machine::{MAX_KEYS, Typed, TypedKeys};
use sacn_watch::{Keyboard, Leaving};

/// The keys that come to a screen, where any do, and what ends by one of them.
#[derive(Clone, Copy, Drop)]
pub struct ScreenKeys<'k> {
    pub keys: Option<&'k TypedKeys>,
    pub leaving: Option<&'k Leaving>,
}

impl<'k> Keyboard for ScreenKeys<'k> {
    fn read(&mut self, octets: &mut [u8; MAX_KEYS]) -> Typed {
        match self.keys {
            Some(keys) => keys.read(octets),
            None => Typed::End,
        }
    }

    fn is_open(&self) -> bool {
        match self.keys {
            Some(keys) => keys.are_open(),
            None => false,
        }
    }

    fn may_leave(&self) -> bool {
        self.leaving.is_some()
    }

    fn leave(&mut self) {
        if let Some(leaving) = self.leaving {
            leaving.ask();
        }
    }
}
