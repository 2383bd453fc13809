// Scripts whose lanes are answered at the same time: worked scripts, and two lanes that wait for
// each other.

mod crossing;
mod making;
mod many;
mod scripts;
