// The limits of the header, its rules, and its sizes.
ghost use Rattle.std.specs.Prelude.{◌≡◌, ◌≤◌, not};
ghost use Rattle.std.specs.List.{position};
ghost use Rattle.figures.specs.Outcome.{outcome};
ghost use Rattle.grid.specs.Rules.{bounds, broken_rule, shape, node_count_or0};
ghost use Rattle.grid.specs.Check.{header_check};
ghost use Rattle.laws.specs.Parts.{pos_part};

use super::{Header, Shape};
use figures::Refusal;

impl Header {
    pub const MAX_LATITUDE: i64 = 323_940_000;

    pub const MIN_LONGITUDE: i64 = -648_000_000;

    pub const MAX_LONGITUDE: i64 = 647_999_999;

    pub const MIN_SPACING: i64 = 1_000;

    pub const MAX_SPACING: i64 = 900_000;

    pub const MIN_ROWS: i64 = 2;

    pub const MAX_ROWS: i64 = 256;

    pub const MIN_COLS: i64 = 2;

    pub const MAX_COLS: i64 = 256;

    pub const MAX_NODES: i64 = 2_048;

    // The rules, in order: the first that is broken, or else the header's sizes.
    pub fn check(self) -> Result<Shape, Refusal>
        ensures { outcome result ≡ header_check self }
    {
        match self.broken_rule() {
            Some(rule) => Err(Refusal::Rule(rule)),
            None => Ok(self.shape()),
        }
    }

    // The number of the first rule that is broken. Rules 7 and 8 form a product and a sum of numbers that the others have bounded.
    fn broken_rule(self) -> Option<usize>
        ensures { result ≡ broken_rule self }
    {
        if let Some(k) = self.broken_bound() {
            return Some(k + 1);
        }
        if self.rows * self.cols > Header::MAX_NODES {
            return Some(7);
        }
        if self.south.0 + (self.rows - 1) * self.dlat > Header::MAX_LATITUDE {
            return Some(8);
        }
        None
    }

    // The place of the first of rules 1 to 6 that is broken. They bound each number by itself.
    #[tactic(auto, unfolding(crate::specs::Rules::between))]
    fn broken_bound(self) -> Option<usize>
        ensures { result ≡ position not (bounds self) }
    {
        let bounds = [
            (-Header::MAX_LATITUDE..=Header::MAX_LATITUDE).contains(&self.south.0),
            (Header::MIN_LONGITUDE..=Header::MAX_LONGITUDE).contains(&self.west.0),
            (Header::MIN_SPACING..=Header::MAX_SPACING).contains(&self.dlat),
            (Header::MIN_SPACING..=Header::MAX_SPACING).contains(&self.dlon),
            (Header::MIN_ROWS..=Header::MAX_ROWS).contains(&self.rows),
            (Header::MIN_COLS..=Header::MAX_COLS).contains(&self.cols),
        ];
        bounds.iter().position(|holds| !*holds)
    }

    // The header's sizes; one that is below 0 is 0.
    pub fn shape(self) -> Shape
        ensures { result ≡ shape self }
    {
        Shape {
            rows: natural(self.rows),
            cols: natural(self.cols),
            dlat: natural(self.dlat),
            dlon: natural(self.dlon),
        }
    }

    // The number of nodes, or 0 where the header breaks a rule.
    pub fn node_count(self) -> usize
        ensures { (result ≡ node_count_or0 self) × (result ≤ 2048) }
    {
        match self.check() {
            Ok(shape) => shape.rows * shape.cols,
            Err(_) => 0,
        }
    }
}

// The number, or 0 where it is below 0.
fn natural(x: i64) -> usize
    ensures { result ≡ pos_part x }
{
    usize::try_from(x).unwrap_or(0)
}
