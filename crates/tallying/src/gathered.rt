// The rows that triples are weighed in, one behind the other and none without a term's length that fits.
ghost use Rattle.std.specs.Prelude.{◌≤◌};
ghost use Rattle.std.proofs.Props.{props};
ghost use Rattle.entities.specs.Limits.{most_terms, row_width};
ghost use Rattle.terms.specs.code.Held.{Held};

// The first `count` rows of the numbers, eight wide.
#[derive(Clone, Copy)]
pub struct GatheredRows<'a> {
    pub rows: &'a [u16],
    pub count: usize,
    pub ghost light: { count ≤ most_terms },
    pub ghost held: { Held row_width count rows.now } by { Prim.hlevel props },
}
