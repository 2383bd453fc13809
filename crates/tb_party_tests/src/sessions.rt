// Sessions over a board: worked sessions by their bytes, however reads cut them; the edges of lines
// and of sessions; failing reads and writes; and that ample memory is enough.

mod cuts;
mod foreign;
mod lines;
mod memory;
mod talking;
mod talks;
