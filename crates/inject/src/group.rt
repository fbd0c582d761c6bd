// The points of one operation, as four numbers. (Here alone, since the definitions that `lib.rt` cites name the struct.)
ghost use Rattle.std.specs.Prelude.{◌*◌, ◌≤◌, ◌<◌, ◌^◌};

// One operation's points under one interruption: how many none points (0 or 1), how many byte points, which are the first
// multiples of a unit, and how many whole points (0 or 1). (Counts and no flags: they are added up.)
#[derive(Clone, Copy, Debug, PartialEq, Eq)]
pub struct Group {
    pub nones: u32,
    pub unit: u32,
    pub inner: u32,
    pub wholes: u32,
    ghost small: { (nones ≤ 1) × (wholes ≤ 1) × (inner * unit < 2 ^ 32) },
}
