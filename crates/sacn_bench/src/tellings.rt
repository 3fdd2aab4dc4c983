//! Recordings explained.
use crate::digest::Digest;
use crate::fault::WorkFault;
use crate::tape::{Tape, Venue};
use crate::text::push_setup;
use crate::voice::Rates;
use crate::work::Work;
use sacn_node::{NodeSetup, read_node};
use sacn_tell::{Form, Options, explain};

/// The port of streaming ACN (E1.31, 9.1).
const PORT: u16 = 5568;

/// What befalls the packets of a network on which little is wrong.
const CALM: Rates = Rates {
    trouble: 6,
    turns: 2,
};

/// What befalls those of one on which much is.
const WILD: Rates = Rates {
    trouble: 60,
    turns: 40,
};

/// A venue of so many universes with a source each, of which so many packets were recorded.
fn venue(universes: u16, packets: u32) -> Venue {
    Venue {
        universes,
        sources: 1,
        packets,
        slowness: 1,
        rates: CALM,
        lists: 0,
        pages: 0,
    }
}

fn told(
    work: &Work,
    venue: Venue,
    seed: u32,
    form: Form,
    setup: Option<&NodeSetup>,
    digest: &mut Digest,
) -> Result<(), WorkFault> {
    let tape = Tape::new(work.alloc, venue, seed)?;
    let options = Options {
        port: PORT,
        universes: &[],
        form,
    };
    let report = explain(work.alloc, tape, &options, setup, digest)?;
    digest.count(report.length)?;
    digest.count(report.tally.datagrams)?;
    Ok(())
}

/// Evenings of venues of 50, 264 and 1000 streams, told as lines and as JSON.
pub fn lines(work: &Work, digest: &mut Digest) -> Result<(), WorkFault> {
    for round in 0..work.rounds {
        let form = if round % 2 == 0 {
            Form::Text
        } else {
            Form::Json
        };
        let seed = work.seed_of(round);
        let pairs = Venue {
            sources: 2,
            ..venue(132, 120_000)
        };
        let many = Venue {
            slowness: 2,
            ..venue(1000, 100_000)
        };
        told(work, pairs, seed, form, None, digest)?;
        told(work, many, seed, form, None, digest)?;
        told(work, venue(50, 100_000), seed, form, None, digest)?;
    }
    Ok(())
}

/// The same with the setup of a node of sixteen ports, of whose frames each change is told with its cause: as JSON and as lines.
pub fn frames(work: &Work, digest: &mut Digest) -> Result<(), WorkFault> {
    let setup = setup(work, 1, 4)?;
    for round in 0..work.rounds {
        let seed = work.seed_of(round);
        let json = venue(64, 16_000);
        let text = Venue {
            sources: 2,
            ..venue(64, 32_000)
        };
        told(work, json, seed, Form::Json, Some(&setup), digest)?;
        told(work, text, seed, Form::Text, Some(&setup), digest)?;
    }
    Ok(())
}

/// Networks at the limits: twice as many streams as are followed, lists of all universes, and universes on which more sources send
/// than a node takes, which end and come again.
pub fn crowd(work: &Work, digest: &mut Digest) -> Result<(), WorkFault> {
    let setup = setup(work, 1, 1)?;
    for round in 0..work.rounds {
        let seed = work.seed_of(round);
        let streams = Venue {
            sources: 4,
            slowness: 4,
            rates: WILD,
            lists: 4,
            pages: 255,
            ..venue(506, 60_000)
        };
        let rivals = Venue {
            sources: 24,
            rates: WILD,
            ..venue(16, 10_000)
        };
        told(work, streams, seed, Form::Text, None, digest)?;
        told(work, rivals, seed, Form::Text, Some(&setup), digest)?;
    }
    Ok(())
}

fn setup(work: &Work, first: u32, step: u32) -> Result<NodeSetup, WorkFault> {
    let mut text = String::new(work.alloc);
    push_setup(&mut text, "", first, step)?;
    Ok(read_node(work.alloc, text.as_str())?)
}
