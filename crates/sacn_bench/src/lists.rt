//! Lists of universes explained.
use crate::digest::Digest;
use crate::fault::WorkFault;
use crate::listers::{ListTape, Listers};
use crate::voice::Rates;
use crate::work::Work;
use sacn_tell::{Form, Options, explain};

/// What befalls the packets of a network on which little is wrong.
const CALM: Rates = Rates {
    trouble: 6,
    turns: 2,
};

/// More sources than lists are kept of, with more streams than are followed, and a short page each.
const SHORT: Listers = Listers {
    sources: 300,
    pages: 1,
    numbers: 8,
    voices: 4,
    times: 18,
    rates: CALM,
};

/// Sources with lists of some pages, and of many.
const SOME: Listers = Listers {
    sources: 20,
    pages: 16,
    numbers: 248,
    ..SHORT
};

const MANY: Listers = Listers {
    sources: 8,
    pages: 64,
    ..SOME
};

/// Sources that list nearly all universes, on as many pages as there may be.
const FULL: Listers = Listers {
    sources: 3,
    pages: 256,
    times: 12,
    ..SOME
};

fn told(
    work: &Work,
    listers: Listers,
    seed: u32,
    form: Form,
    digest: &mut Digest,
) -> Result<(), WorkFault> {
    let tape = ListTape::new(work.alloc, listers, seed)?;
    let options = Options {
        port: 5568,
        universes: &[],
        form,
    };
    let report = explain(work.alloc, tape, &options, None, digest)?;
    digest.count(report.length)?;
    digest.count(report.tally.datagrams)?;
    digest.count(report.pages_passed)?;
    Ok(())
}

/// Minutes of networks whose sources list their universes, told as lines and as JSON.
pub fn lists(work: &Work, digest: &mut Digest) -> Result<(), WorkFault> {
    for round in 0..work.rounds {
        let (one, other) = if round % 2 == 0 {
            (Form::Text, Form::Json)
        } else {
            (Form::Json, Form::Text)
        };
        let seed = work.seed_of(round);
        told(work, SHORT, seed, one, digest)?;
        told(work, SOME, seed, other, digest)?;
        told(work, MANY, seed, one, digest)?;
        told(work, FULL, seed, other, digest)?;
    }
    Ok(())
}
