// A release of a chain, and its rules alone.

ghost use Rattle.std.specs.Prelude.{◌≡◌, ◌+◌, ◌≤◌, IfOk, OnOk, length, take};
ghost use Rattle.std.specs.Arc.{arc_value};
ghost use Rattle.tb_base.specs.Records.{AllFit};
ghost use Rattle.tb_release.specs.Chains.{change_count};
ghost use Rattle.tb_release.specs.Revised.{release_at as release_numbered, IsRevised};

use std::alloc::Global;
use std::sync::Arc;
use std::sync::ledger::Ledger;
use tb_base::{Memory, Rules, Shape, Steps};
use tb_release::{Batches, Release, follow_rules, replay};

/// Release `n` of a chain on release 0: release 0 itself, which is shared, or one that is made from
/// it by the first `n` batches. It shares the pages and shards that these don't touch. Their
/// changes are lent once; it takes memory for copies of what they touch, and for a key book.
///
/// The counter rises by how many changes of records these batches have, or by fewer where the call
/// is out of memory.
pub fn release_at<L: Ledger>(
    alloc: Global,
    shape: &Shape,
    base: &Arc<Release>,
    batches: &Batches,
    n: u32,
    steps: &mut Steps<L>,
) -> Result<Arc<Release>, Memory>
    // Release 0 and a chain on it, whose records fit the shape.
    requires chain { IsRevised shape.now (arc_value base.now) batches.now }
    requires there { n ≤ length batches.now }
    ensures release { IfOk result
        (λ release. arc_value release ≡ release_numbered (arc_value base.now) batches.now n) }
    ensures fit { IfOk result (λ release. AllFit shape.now (arc_value release).records) }
    ensures price { steps.new ≤ steps.old + change_count (take n batches.now) }
    ensures cost { OnOk result (steps.new ≡ steps.old + change_count (take n batches.now)) }
{
    let _ = shape;
    if n == 0 {
        let same = Arc::try_clone(base)?;
        return Ok(same);
    }
    let release = replay(alloc, base, batches, n as usize, steps)?;
    let shared = Arc::new(alloc, release)?;
    Ok(shared)
}

/// The rules of release `n` of a chain on release 0: its threshold, and the pvalues that were set
/// up to it. The edits of the rules in the first `n` batches are made in release 0's rules, and no
/// change of a record is looked at. It takes memory for each pvalue.
pub fn rules_at(alloc: Global, base: &Release, batches: &Batches, n: u32) -> Result<Rules, Memory>
    requires { n ≤ length batches.now }
    ensures { IfOk result (λ rules. rules ≡ (release_numbered base.now batches.now n).rules) }
{
    let _ = alloc;
    let mut rules = base.rules().copy()?;
    for i in 0..n as usize {
        let batch = batches.at(i);
        follow_rules(&mut rules, batch)?;
    }
    Ok(rules)
}
