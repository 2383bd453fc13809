// Gates for the lanes of a script.
//
// Gates go by the lane's number, in the order of first appearance, and stand in their places again
// at the end.

ghost use Rattle.std.specs.Prelude.{◌≡◌, IfOk, length, vec_len};
ghost use Rattle.tb_script.specs.Scripts.{lanes_of};

use std::alloc::Global;
use tb_base::Memory;
use tb_build::Open;
use tb_script::Script;

/// A gate for each lane of a script, of which none waits. It takes memory for the list.
pub fn open_gates(alloc: Global, script: &Script) -> Result<Vec<Open>, Memory>
    ensures { IfOk result (λ v. vec_len v ≡ length (lanes_of script.now.lines)) }
{
    let mut gates = Vec::new(alloc);
    for _ in 0..script.lanes() {
        gates.push(Open)?;
    }
    Ok(gates)
}
