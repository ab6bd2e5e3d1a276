// One component of the shifts, and how much it changes from node to node: steepness, refusal 4, and twist, refusal 14.
ghost use Rattle.std.specs.Prelude.{◌≡◌, ◌*◌, ◌≤◌, ◌<◌, ◌&&◌, ltb, length};
ghost use Rattle.grid.specs.Grid.{node_lists};
ghost use Rattle.grid.specs.Nodes.{has_east, too_much, steep_to, steep_east, steep_north, steep_at, twisted};
ghost use Rattle.grid.specs.Needs.{Extent, Judgeable};

use super::Shape;

// One component's shifts, one for each node, all in their range.
#[derive(Clone, Copy)]
pub(crate) struct Component<'a> {
    pub(crate) shape: Shape,
    pub(crate) shifts: &'a [i64],
    ghost sizes: { Extent shape },
    ghost judgeable: { Judgeable shape shifts.now },
}

impl<'a> Component<'a> {
    // Whether node `k` is too steep to its east neighbour. The last node of a row has none; that takes a division, so it is asked only
    // of a node that is too far from the next.
    fn steep_east(self, k: usize) -> bool
        requires { k < self.shape.rows * self.shape.cols }
        ensures { result ≡ steep_east self.entry.shape self.entry.shifts.now k }
    {
        self.steep_to(self.shape.dlon, k, k + 1) && self.has_east(k)
    }

    // Whether it is too steep to its north neighbour. The nodes of the last row have none.
    fn steep_north(self, k: usize) -> bool
        requires { k < self.shape.rows * self.shape.cols }
        ensures { result ≡ steep_north self.entry.shape self.entry.shifts.now k }
    {
        self.steep_to(self.shape.dlat, k, k + self.shape.cols)
    }

    // Whether it is too steep to the node `to` behind it, if there is such a node.
    fn steep_to(self, spacing: usize, k: usize, to: usize) -> bool
        requires { (spacing ≤ 900000) × (k < to) }
        ensures { result ≡ (ltb to (length self.entry.shifts.now) && steep_to spacing self.entry.shifts.now k to) }
    {
        to < self.shifts.len() && too_much(16, spacing, self.shifts[to] - self.shifts[k])
    }

    // Whether it is the southwest node of a cell that is twisted too far. The last node of a row is no cell's southwest node; that is
    // asked last, as it takes a division.
    pub(crate) fn twisted(self, k: usize) -> bool
        requires { k < self.shape.rows * self.shape.cols }
        ensures { result ≡ twisted self.entry.shape self.entry.shifts.now k }
    {
        let s = self.shifts;
        let nw = k + self.shape.cols;
        if nw + 1 >= s.len() {
            return false;
        }
        let twist = s[k] - s[k + 1] - s[nw] + s[nw + 1];
        too_much(64, self.shape.dlat.min(self.shape.dlon), twist) && self.has_east(k)
    }

    // Whether it has an east neighbour: the next node is in its row.
    fn has_east(self, k: usize) -> bool
        requires { k < self.shape.rows * self.shape.cols }
        ensures { result ≡ has_east self.entry.shape k }
    {
        let row = k / self.shape.cols;
        k + 1 < (row + 1) * self.shape.cols
    }
}

// Whether node `k` is too steep. The reasons stand in the order in which they are told.
#[tactic(auto, unfolding(crate::specs::Nodes::steep_at))]
pub(crate) fn steep_at(lat: Component, lon: Component, k: usize) -> bool
    requires { (lat.shape ≡ lon.shape) × (k < lat.shape.rows * lat.shape.cols) }
    ensures { result ≡ steep_at lat.entry.shape (node_lists lat.entry.shifts.now lon.entry.shifts.now) k }
{
    lat.steep_east(k) || lon.steep_east(k) || lat.steep_north(k) || lon.steep_north(k)
}

// Whether the size of `x`, so many times, is above 100 times the spacing.
fn too_much(times: usize, spacing: usize, x: i64) -> bool
    requires { (0 < times) × (spacing ≤ 900000) }
    ensures { result ≡ too_much times spacing x }
{
    x.unsigned_abs() > (100 * spacing / times) as u64
}
