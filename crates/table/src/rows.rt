// The table's rows. The ids get their cells in order from u, so that all points that could stand between are decided before.
ghost use Rattle.std.specs.Prelude.{◌≡◌, ◌+◌, ◌*◌, ◌<◌, ◌≤◌, ◌%◌, leb, length, set, replicate};
ghost use Rattle.rules.specs.Labels.{cell, table_of};
ghost use Rattle.table.specs.Kept.{far};
ghost use Rattle.table.specs.Rows.{top, lowest, led, Spread, cell_by, Queued, Sofar, Written, RowOf};

use crate::kept::Distances;
use crate::label;
use space::{distance_of, id_of};

// Above every distance and every key: it stands for none. An Option is no plainer here: in its order None comes first, and here it has to come last.
const TOP: u32 = u32::MAX;

// The least distance to x from a point that leads, where v leads too if it is nearer to u than x is.
#[tactic(auto, unfolding(crate::specs::Rows::led))]
fn led_to(duv: u32, dux: u32, dvx: u32, least: u32) -> u32
    ensures { result ≡ led duv dux dvx least }
{
    if dux <= duv {
        return least;
    }
    dvx.min(least)
}

// Whether the edge to v is direct, by D(u,v) and the least distance to v from a point that leads.
fn is_direct(duv: u32, least: u32) -> bool
    ensures { result ≡ leb duv least }
{
    duv <= least
}

// The cell of an edge by the same two.
#[tactic(auto, unfolding(crate::specs::Rows::cell_by))]
fn cell_by(duv: u32, least: u32) -> u16
    requires { duv ≤ 4161600 }
    ensures { result ≡ cell_by duv least }
{
    if is_direct(duv, least) {
        return 0;
    }
    label(duv, least)
}

// The point v leads from now on. Stays: the bounds, as for `between`; and no method of `Row`, whose `sofar` does not hold
// again until v leads.
fn spread(distances: &Distances, u: usize, v: usize, lead: &mut [u32; 128])
    requires { (u < 128) × (v < 128) × (length lead.old ≡ 128) }
    ensures { Spread (far distances.now.cells) u v lead.old lead.new }
{
    let duv = distances.between(u, v);
    for (x, least) in lead.iter_mut().enumerate() {
        *least = led_to(
            duv,
            distances.between(u, x),
            distances.between(v, x),
            *least,
        );
    }
}

// The keys of all ids but u, in their places; each other place keeps TOP. Stays: the bound on u, which the row then keeps.
fn queue(distances: &Distances, u: usize, left: &mut [u32; 128])
    requires u_in { u < distances.now.n }
    requires blank { left.old ≡ replicate 128 top }
    ensures { Queued (far distances.now.cells) distances.now.n u left.new }
{
    for v in 0..distances.n {
        // Loses nothing: v is below 128, and the library has no `u32::from` of a usize.
        left[v] = distances.between(u, v) * 128 + v as u32;
    }
    left[u] = TOP;
}

// The work of row u: the keys of the ids that wait for a cell, and for each id the least distance to it from a point that leads towards it.
// Stays: two arrays and no array of pairs. `first_key` reads all of the one and `spread` all of the other, each with wide registers; with pairs the build took
// 55 to 70 % longer. They are lent: a row that held them would be handed on by copies, for which the archive would need C's `memcpy`.
#[derive(Drop)]
struct Row<'a> {
    left: &'a mut [u32; 128],
    lead: &'a mut [u32; 128],
    distances: &'a Distances,
    u: usize,
    ghost u_in: { u < distances.now.n },
    ghost sofar: { ∥ Sofar (far distances.now.cells) distances.now.n u left.now lead.now ∥₁ },
}

impl Row<'_> {
    // The first key of those that wait; TOP where none does. Stays: no Option. Asked by a `while let`, it made the build 7 % longer.
    fn first_key(&self) -> u32
        ensures { result ≡ lowest self.now.left.now }
    {
        self.left.iter().fold(TOP, |key, x| key.min(*x))
    }

    // The cell of the first id of those that wait, which then leads if its edge is direct. No other id that could stand between waits.
    fn settle(&mut self, key: u32, cells: &mut [u16])
        requires room { length cells.old ≡ self.old.distances.now.n }
        requires first { (key ≡ lowest self.old.left.now) × (key < top) }
        ensures same_row { (self.new.distances.now ≡ self.old.distances.now) × (self.new.u ≡ self.old.u) }
        ensures left_after { self.new.left.now ≡ set self.old.left.now (key % 128) top }
        ensures cells_after { cells.new
            ≡ set cells.old (key % 128) (cell (far self.old.distances.now.cells) self.old.distances.now.n self.old.u (key % 128)) }
    {
        let v = usize::from(id_of(key));
        let duv = distance_of(key);
        let least = self.lead[v];
        self.left[v] = TOP;
        cells[v] = cell_by(duv, least);
        if is_direct(duv, least) {
            spread(self.distances, self.u, v, self.lead);
        }
    }

    // The cells of all ids that wait.
    fn settle_all(&mut self, cells: &mut [u16])
        requires { Written (far self.old.distances.now.cells) self.old.distances.now.n self.old.u self.old.left.now cells.old }
        ensures { RowOf (far self.old.distances.now.cells) self.old.distances.now.n self.old.u cells.new }
    {
        let mut key = self.first_key();
        while key < TOP {
            self.settle(key, cells);
            key = self.first_key();
        }
    }
}

// Row u, into its n cells. Stays: the bound on u, as for `queue`, and the length, since the cells are a part of the table.
fn write_row(distances: &Distances, u: usize, cells: &mut [u16])
    requires { (u < distances.now.n) × (length cells.old ≡ distances.now.n) }
    ensures { RowOf (far distances.now.cells) distances.now.n u cells.new }
{
    let mut left = [TOP; 128];
    let mut lead = [TOP; 128];
    queue(distances, u, &mut left);
    let mut row = Row {
        left: &mut left,
        lead: &mut lead,
        distances,
        u,
    };
    cells[u] = u16::MAX;
    row.settle_all(cells);
}

// Stays: the parts by index. Of what chunks_exact_mut lends, the library says nothing once it is written.
pub(crate) fn write_rows(distances: &Distances, table: &mut [u16])
    requires { length table.old ≡ distances.now.n * distances.now.n }
    ensures { table.new ≡ table_of (far distances.now.cells) distances.now.n }
{
    let n = distances.n;
    for u in 0..n {
        let at = u * n;
        let end = at + n;
        write_row(distances, u, &mut table[at..end]);
    }
}
