//! A count of what is sent.
use sacn_desk::{DeskDatagram, DeskLink};

/// A link that counts what it hands on to another one.
#[derive(Drop)]
pub struct CountedLink<L> {
    link: L,
    sent: u64,
    failed: u64,
}

impl<L: DeskLink + Drop> CountedLink<L> {
    /// Over this link, which was handed nothing.
    pub fn over(link: L) -> Self {
        CountedLink {
            link,
            sent: 0,
            failed: 0,
        }
    }

    /// The link below.
    pub fn link(&self) -> &L {
        &self.link
    }

    /// How many datagrams the link below took.
    pub fn sent(&self) -> u64 {
        self.sent
    }

    /// How many weren't taken by each destination that they were for.
    pub fn failed(&self) -> u64 {
        self.failed
    }
}

impl<L: DeskLink + Drop> DeskLink for CountedLink<L> {
    fn hand_over(&mut self, datagram: &DeskDatagram<'_>) -> bool {
        let is_taken = self.link.hand_over(datagram);
        let count = if is_taken {
            &mut self.sent
        } else {
            &mut self.failed
        };
        *count = count.saturating_add(1);
        is_taken
    }
}
