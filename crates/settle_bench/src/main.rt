//! Settles trees whose bindings copy cells, condemns and removes objects, and says what came of that. With the word `speed`
//! the trees are large, and the processor's time of each step is told. It is no part of the product.
#![tactic(auto)]

ghost use Rattle.std.specs.Prelude.{◌≡◌, ◌<◌};

mod condemning;
mod rows;
mod telling;

use condemning::{chain, wide};
use qml_base::Steps;
use rows::rows;
use std::marker::Brand;
use std::sync::ledger::{Blank, Ledger};
use std::{env, io};
use telling::tell_sizes;

/// How large the trees are, and whether times are told.
#[derive(Clone, Copy)]
pub struct Measure {
    pub cells: u32,
    pub objects: u32,
    pub timed: bool,
}

const SPEED: Measure = Measure {
    cells: 50_000,
    objects: 100_000,
    timed: true,
};

const SMALL: Measure = Measure {
    cells: 50,
    objects: 20,
    timed: false,
};

fn all<L: Ledger>(rt: &HostRuntime, measure: Measure, steps: &mut Steps<L>) -> io::Result<()> {
    rows(rt, measure, steps)?;
    chain(rt, measure, steps)?;
    wide(rt, measure, steps)?;
    tell_sizes(rt, measure.timed)
}

fn begun<L: Ledger>(rt: &HostRuntime, measure: Measure, blank: Blank) -> io::Result<()>
    requires name { blank.name ≡ L.name }
    requires parts { blank.parts ≡ L.parts }
    requires some { 0 < L.parts }
{
    let mut steps = Steps::<L>::new(blank);
    all(rt, measure, &mut steps)
}

fn main(rt: HostRuntime) -> io::Result<()> {
    let measure = match env::args(&rt)?.skip(1).next() {
        Some(_) => SPEED,
        None => SMALL,
    };
    begun::<Brand>(&rt, measure, Blank::new(1))
}
