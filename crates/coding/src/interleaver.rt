// The interleaver of a symbol, over columns and widths: one walk for every modulation, there and back. That both slices are as
// long, and how long, stands in each contract, as does a column's bound: no type says it of a slice that is lent to be written.
ghost use Rattle.std.specs.Prelude.{◌≡◌, ◌+◌, ◌*◌, ◌%◌, ◌<◌, length, if◌then◌else◌};
ghost use Rattle.coding.specs.Interleaver.{Grid as IsGrid, source, interleaved, deinterleaved, turn_size, Undone, ComesBack, Placed, Moved};
ghost use Rattle.frame.specs.Rate.{n_bpsc};

use frame::rate::Modulation;

// Every grid's permutation and its inverse undo each other.
pub fn interleaving_is_undone()
    ensures { Undone }
{}

// Every list comes back, either way. It computes nothing: its contract is the law.
pub fn interleaved_lists_come_back<T>()
    ensures { ComesBack T }
{}

// The bits of a symbol over its places: COLUMNS columns, each of GROUPS groups of TURN places. That these make a grid of them
// is known of every value.
#[derive(Drop)]
struct Grid<'a, T, const COLUMNS: usize, const TURN: usize, const GROUPS: usize> {
    from: &'a [T],
    ghost is_grid: { IsGrid COLUMNS TURN GROUPS (length from.now) },
    ghost below_65536: { length from.now < 65536 },
}

impl<'a, T: Copy, const COLUMNS: usize, const TURN: usize, const GROUPS: usize> Grid<
    'a,
    T,
    COLUMNS,
    TURN,
    GROUPS,
> {
    // The coded bit that goes to place `t` of a group of a column: each group is turned by its column.
    fn source(&self, column: usize, group: usize, t: usize) -> usize
        requires column_bound { column < COLUMNS }
        requires group_bound { group < GROUPS }
        requires t_bound { t < TURN }
        ensures value { result ≡ source COLUMNS (length self.now.from.now) TURN (TURN * (GROUPS * column + group) + t) }
        ensures within { result < length self.now.from.now }
    {
        let turned = within_group::<TURN>(t + column % TURN);
        COLUMNS * (TURN * group + turned) + column
    }

    // Moves the bits of one group: where the places before it are done, so are its own. It goes by the coordinates of the grid,
    // since one of both slices is met out of order.
    fn move_group<const BACK: bool>(&self, column: usize, group: usize, to: &mut [T])
        requires to_len { length to.old ≡ length self.now.from.now }
        requires column_bound { column < COLUMNS }
        requires group_bound { group < GROUPS }
        ensures { Moved BACK COLUMNS TURN self.now.from.now to.old (TURN * (GROUPS * column + group)) → Moved BACK COLUMNS TURN self.now.from.now to.new (TURN * (GROUPS * column + group + 1)) }
    {
        let from = self.from;
        let first = TURN * (GROUPS * column + group);
        for t in 0..TURN {
            let (origin, target) = ends::<BACK>(first + t, self.source(column, group, t));
            to[target] = from[origin];
        }
    }

    // Moves the bits of one column in the same way. (The three levels are functions, since a function here has one loop.)
    fn move_column<const BACK: bool>(&self, column: usize, to: &mut [T])
        requires to_len { length to.old ≡ length self.now.from.now }
        requires column_bound { column < COLUMNS }
        ensures { Moved BACK COLUMNS TURN self.now.from.now to.old (TURN * (GROUPS * column)) → Moved BACK COLUMNS TURN self.now.from.now to.new (TURN * (GROUPS * column + GROUPS)) }
    {
        for group in 0..GROUPS {
            self.move_group::<BACK>(column, group, to);
        }
    }

    // Moves all of them.
    fn move_all<const BACK: bool>(&self, to: &mut [T])
        requires to_len { length to.old ≡ length self.now.from.now }
        ensures { Moved BACK COLUMNS TURN self.now.from.now to.new (length self.now.from.now) }
    {
        for column in 0..COLUMNS {
            self.move_column::<BACK>(column, to);
        }
    }
}

// A sum of two places in a group, back within it: one test takes the place of a division.
fn within_group<const TURN: usize>(sum: usize) -> usize
    requires { sum < TURN + TURN }
    ensures { result ≡ sum % TURN }
{
    if sum < TURN { sum } else { sum - TURN }
}

// From where to where a bit is moved: from its source to its place, or back. (A flag, and no type for each way: all that it
// decides is this pair.)
fn ends<const BACK: bool>(place: usize, source: usize) -> (usize, usize)
    ensures origin { result.0 ≡ (if BACK then place else source) }
    ensures target { result.1 ≡ (if BACK then source else place) }
{
    if BACK {
        (place, source)
    } else {
        (source, place)
    }
}

// Puts what stands at each k in `from` at its place in `to`. (This and the way back are the names of one walk's two directions,
// which `true` and `false` would not say.)
pub fn interleave<T: Copy, const COLUMNS: usize, const TURN: usize, const GROUPS: usize>(
    from: &[T],
    to: &mut [T],
)
    requires grid { IsGrid COLUMNS TURN GROUPS (length from.now) }
    requires from_len_bound { length from.now < 65536 }
    requires to_len { length to.old ≡ length from.now }
    ensures value { (d : T) → to.new ≡ interleaved d COLUMNS TURN from.now }
    ensures placed { Placed COLUMNS TURN from.now to.new }
{
    Grid::<T, COLUMNS, TURN, GROUPS> { from }.move_all::<false>(to);
}

// Takes what stands at the place of each k in `from` back to k in `to`.
pub fn deinterleave<T: Copy, const COLUMNS: usize, const TURN: usize, const GROUPS: usize>(
    from: &[T],
    to: &mut [T],
)
    requires grid { IsGrid COLUMNS TURN GROUPS (length from.now) }
    requires from_len_bound { length from.now < 65536 }
    requires to_len { length to.old ≡ length from.now }
    ensures value { (d : T) → to.new ≡ deinterleaved d COLUMNS TURN from.now }
    ensures placed { Placed COLUMNS TURN to.new from.now }
{
    Grid::<T, COLUMNS, TURN, GROUPS> { from }.move_all::<true>(to);
}

// The bits of a symbol of 48 carriers, which has 16 columns, to their places, or back.
fn move_symbol<T: Copy, const BACK: bool>(modulation: Modulation, from: &[T], to: &mut [T])
    requires from_len { length from.now ≡ 48 * n_bpsc modulation }
    requires to_len { length to.old ≡ length from.now }
    ensures { Moved BACK 16 (turn_size modulation) from.now to.new (length from.now) }
{
    // a modulation's grid is a type, and only the names of types can be given
    match modulation {
        Modulation::Bpsk => Grid::<T, 16, 1, 3> { from }.move_all::<BACK>(to),
        Modulation::Qpsk => Grid::<T, 16, 1, 6> { from }.move_all::<BACK>(to),
        Modulation::Qam16 => Grid::<T, 16, 2, 6> { from }.move_all::<BACK>(to),
        Modulation::Qam64 => Grid::<T, 16, 3, 6> { from }.move_all::<BACK>(to),
    }
}

// The coded bits of a symbol to their places. (This and the next, too, are names of the walk's two directions.)
pub fn interleave_symbol<T: Copy>(modulation: Modulation, from: &[T], to: &mut [T])
    requires from_len { length from.now ≡ 48 * n_bpsc modulation }
    requires to_len { length to.old ≡ length from.now }
    ensures value { (d : T) → to.new ≡ interleaved d 16 (turn_size modulation) from.now }
    ensures placed { Placed 16 (turn_size modulation) from.now to.new }
{
    move_symbol::<T, false>(modulation, from, to);
}

// And back.
pub fn deinterleave_symbol<T: Copy>(modulation: Modulation, placed: &[T], to: &mut [T])
    requires placed_len { length placed.now ≡ 48 * n_bpsc modulation }
    requires to_len { length to.old ≡ length placed.now }
    ensures value { (d : T) → to.new ≡ deinterleaved d 16 (turn_size modulation) placed.now }
    ensures placed { Placed 16 (turn_size modulation) to.new placed.now }
{
    move_symbol::<T, true>(modulation, placed, to);
}
