ghost use Rattle.std.specs.Prelude.{◌≡◌};
ghost use Rattle.link_core.specs.Ties.{cause_of, quiet};

use fabric_terms::Body;
use ring_points::RangeSet;
use std::marker::Model;

/// The flight that a frame brings, with its ranges where they lie. Contracts see it as a `Flight`.
#[derive(Drop)]
pub(crate) struct Brought<'a> {
    pub number: u32,
    pub part: &'a RangeSet,
}

impl<'a> Model for Brought<'a> {
    ghost use Rattle.ring_points.specs.declared.who.Flight.{Flight};

    ghost Value = { Flight };

    ghost view = { λ f. record { number = f.number; part = f.part.now } };
}

/// What made a row of the links, as far as its notes need it: whether a peer that is gone wants an answer, and the
/// flight that has come. Contracts see it as the record `Cause`.
#[derive(Drop)]
pub(crate) struct Cause<'a> {
    pub gone: bool,
    pub flight: Option<Brought<'a>>,
}

impl<'a> Model for Cause<'a> {
    ghost use Rattle.link_core.specs.Ties.{Cause};

    ghost Value = { Cause };

    ghost view = { λ c. record { gone = c.gone; flight = c.flight } };
}

impl<'a> Cause<'a> {
    /// A firing, and a frame that neither ends a session nor brings a flight.
    pub(crate) fn none() -> Cause<'a>
        ensures { result ≡ quiet }
    {
        Cause {
            gone: false,
            flight: None,
        }
    }

    /// What a frame with this body is to the notes of its row.
    pub(crate) fn of(body: &'a Body) -> Cause<'a>
        ensures { result ≡ cause_of body.now }
    {
        match body {
            Body::Gone { bound, .. } => Cause {
                gone: *bound,
                flight: None,
            },
            Body::Transfer { flight, ranges, .. } => Cause {
                gone: false,
                flight: Some(Brought {
                    number: *flight,
                    part: ranges,
                }),
            },
            _ => Cause::none(),
        }
    }
}
