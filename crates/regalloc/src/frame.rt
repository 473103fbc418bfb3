//! Each variable has a word of the frame of its own.

ghost use Rattle.std.specs.Prelude.{◌≡◌, ◌≤◌, IfOk, None, length};
ghost use Rattle.live.specs.Clash.{clash};
ghost use Rattle.live.specs.Live.{lives as points_of_function};
ghost use Rattle.regalloc.specs.Words as spec;

use cm_base::{List, NoMemory};
use live::laws::apart_law;
use live::{Lives, Places, Where};
use mid_ir::MidFn;
use std::alloc::Global;

/// The words of a frame from the first on, so many.
#[tactic(auto, using(crate::proofs::Words::next_word))]
fn words(alloc: Global, vars: u32) -> Result<List<Where>, NoMemory>
    ensures { IfOk result (λ all. all ≡ spec.words 0 vars) }
{
    let mut all = List::new(alloc);
    for v in 0..vars {
        all.push(Where::Frame(v))?;
    }
    Ok(all)
}

/// A place for each variable of a function, so that no two that are live at one point share one. `lives` are the function's,
/// and it has at most 904 variables. The frame has at most as many words as there are variables.
#[tactic(auto, using(crate::proofs::Words::words_apart, crate::proofs::Words::as_many, crate::proofs::Words::frame_size_all))]
pub fn allocate(alloc: Global, f: &MidFn, lives: &Lives) -> Result<Places, NoMemory>
    requires few { f.now.vars ≤ 904 }
    requires lives { lives.now.list ≡ points_of_function f.now }
    ensures clash { IfOk result (λ it. clash it.list (points_of_function f.now) ≡ None) }
    ensures frame { IfOk result (λ it. spec.frame_size it.list ≤ f.now.vars) }
    ensures places { IfOk result (λ it. length it.list ≡ f.now.vars) }
{
    apart_law();
    let _ = lives;
    Ok(Places {
        list: words(alloc, f.vars)?,
    })
}
