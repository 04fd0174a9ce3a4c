// The record of a page, and the calls on it.
pub mod amending;
mod falling;
pub mod lifting;
pub mod opening;
pub mod putting;
#[cfg(test)]
mod tests;

ghost use Rattle.std.specs.Prelude.{ℕ, ◌^◌, ◌<◌, ◌≤◌};
ghost use Rattle.page.specs.Sound.{Here, Past};

// What stands on a page: its breadth in columns, how many pieces it has, how many settings each of them has, and how many rows stand.
// The type keeps each number in range. What is no piece has 0 settings, so a record is determined by what is on the page.
// The numbers of settings are an array beside a count, since the record is fixed memory that callers copy whole. It has no `impl Model`:
// callers would then see its value alone, and no more what the ghost fields say.
#[derive(Clone, Copy)]
pub struct Page {
    breadth: u8,
    count: u8,
    settings: [u8; 12],
    standing: u16,
    ghost broad: { (1 ≤ breadth) × (breadth ≤ 24) },
    ghost few: { count ≤ 12 },
    ghost here: { Here count settings },
    ghost past: { Past count settings },
    ghost stands: { standing < 2 ^ count },
}
