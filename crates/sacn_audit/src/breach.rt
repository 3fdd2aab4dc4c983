//! How often a rule was broken, and when.

ghost use Rattle.std.specs.Prelude.{◌≡◌};
ghost use Rattle.sacn_audit.specs.Audits.{judged_alone};
ghost use Rattle.sacn_audit.specs.Breaches.{breach_of, no_breach, no_breaches, noted, noted_if};

use crate::rule::Rule;
use crate::sight::Sight;

/// How often a rule was broken, and when. Moments are in milliseconds; all are 0 where it wasn't.
#[derive(Clone, Copy, PartialEq, Eq)]
pub struct Breach {
    /// So many times, at most 2^64 - 1.
    pub times: u64,
    /// The moment of the first time.
    pub first: u64,
    /// The moment of the latest time.
    pub latest: u64,
}

impl Breach {
    /// A rule that wasn't broken yet.
    pub fn none() -> Self
        ensures { result ≡ no_breach }
    {
        Breach {
            times: 0,
            first: 0,
            latest: 0,
        }
    }

    /// It was broken once more, at this moment.
    pub fn note(&mut self, moment: u64)
        ensures { self.new ≡ noted moment self.old }
    {
        if self.times == 0 {
            self.first = moment;
        }
        self.times = self.times.saturating_add(1);
        self.latest = moment;
    }

    /// It was broken once more, if it was.
    pub(crate) fn note_if(&mut self, is_broken: bool, moment: u64)
        ensures { self.new ≡ noted_if is_broken moment self.old }
    {
        if is_broken {
            self.note(moment);
        }
    }
}

/// The breach of each rule.
#[derive(Clone, Copy, PartialEq, Eq)]
pub struct Breaches {
    /// Of `Rule::TooFast`.
    pub too_fast: Breach,
    /// Of `Rule::Silent`.
    pub silent: Breach,
    /// Of `Rule::ShortChange`.
    pub short_change: Breach,
    /// Of `Rule::ShortEnd`.
    pub short_end: Breach,
    /// Of `Rule::CloseEnds`.
    pub close_ends: Breach,
    /// Of `Rule::NameNotEnded`.
    pub name_not_ended: Breach,
    /// Of `Rule::NameNotText`.
    pub name_not_text: Breach,
    /// Of `Rule::NumberStays`.
    pub number_stays: Breach,
    /// Of `Rule::NumberLeftOut`.
    pub number_left_out: Breach,
    /// Of `Rule::ReservedBits`.
    pub reserved_bits: Breach,
    /// Of `Rule::OtherGroup`.
    pub other_group: Breach,
    /// Of `Rule::OtherStart`.
    pub other_start: Breach,
}

impl Breaches {
    /// No rule was broken yet.
    pub(crate) fn none() -> Self
        ensures { result ≡ no_breaches }
    {
        Breaches {
            too_fast: Breach::none(),
            silent: Breach::none(),
            short_change: Breach::none(),
            short_end: Breach::none(),
            close_ends: Breach::none(),
            name_not_ended: Breach::none(),
            name_not_text: Breach::none(),
            number_stays: Breach::none(),
            number_left_out: Breach::none(),
            reserved_bits: Breach::none(),
            other_group: Breach::none(),
            other_start: Breach::none(),
        }
    }

    /// Notes which rules a packet breaks by itself, whatever came before.
    pub(crate) fn judge_alone(&mut self, moment: u64, sight: Sight)
        ensures { self.new ≡ judged_alone moment sight self.old }
    {
        self.name_not_ended.note_if(!sight.is_name_ended, moment);
        self.name_not_text.note_if(!sight.is_name_text, moment);
        self.reserved_bits.note_if(sight.has_reserved_bits, moment);
        self.other_group.note_if(sight.is_to_other_group, moment);
        self.other_start.note_if(sight.has_other_start(), moment);
    }

    /// That of one rule.
    pub(crate) fn of(&self, rule: Rule) -> Breach
        ensures { result ≡ breach_of rule self.now }
    {
        match rule {
            Rule::TooFast => self.too_fast,
            Rule::Silent => self.silent,
            Rule::ShortChange => self.short_change,
            Rule::ShortEnd => self.short_end,
            Rule::CloseEnds => self.close_ends,
            Rule::NameNotEnded => self.name_not_ended,
            Rule::NameNotText => self.name_not_text,
            Rule::NumberStays => self.number_stays,
            Rule::NumberLeftOut => self.number_left_out,
            Rule::ReservedBits => self.reserved_bits,
            Rule::OtherGroup => self.other_group,
            Rule::OtherStart => self.other_start,
        }
    }
}
