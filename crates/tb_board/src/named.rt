use std::marker::Brand;

/// Names the front of a board. What stands behind a lock is known by its type alone, so a board's
/// type has this parameter: whoever makes a board makes an `Opening` first, and then calls a
/// function that is generic in it, at `Brand`, whose proof picks the name of the opening's front.
pub trait Named {
    ghost use Rattle.tb_front.specs.Holders.{Name};

    ghost name: { Name };
}

impl Named for Brand {
    ghost use Rattle.tb_front.specs.Holders.{no_front};

    ghost name = { no_front };
}
