//! Laws of the middle form of programs.

ghost use Rattle.std.specs.Prelude.{◌≡◌, ℕ, ◌+◌, ◌*◌, ◌%◌, ◌≤◌, true, List, length, map, All};
ghost use Rattle.std.specs.List.{filter};
ghost use Rattle.c_tree.specs.Conditions.{Program, IsFunction, IsProgram};
ghost use Rattle.c_tree.specs.Globals.{globals_bytes};
ghost use Rattle.c_tree.specs.Nodes.{function_nodes};
ghost use Rattle.c_tree.specs.Numbers.{Names};
ghost use Rattle.c_tree.specs.Slots.{slots};
ghost use Rattle.c_tree.specs.declared.program.TFunction.{TFunction};
ghost use Rattle.mid_ir.specs.Cost.{function_cost};
ghost use Rattle.mid_ir.specs.Numbers.{function_in_range};
ghost use Rattle.mid_ir.specs.declared.program.MidFn.{MidFn};
ghost use Rattle.lower_code.specs.Programs.{function_code, lowered};
ghost use Rattle.lower_laws.specs.Follows.{Follows};
ghost use Rattle.lower_laws.specs.Limits.{IsLimited};

/// For every veneers, start, turns and bound a run of a program's middle form has the events of the program's run with
/// their marks, and the same end, and its greatest need of stack isn't greater.
pub fn follows_law()
    ensures { (p : Program) → IsProgram p → Follows p }
{}

/// The code of a function has at most 256 bytes for each of its nodes.
pub fn cost_law()
    ensures { (globals : List ℕ) (f : TFunction) → function_cost (function_code globals f) ≤ 256 * function_nodes f }
{}

/// A function has at most four variables more than its slots, and the numbers in it are in range: each variable, offset, size
/// and function that it names is one that there is.
pub fn range_law()
    ensures vars { (globals : List ℕ) (f : TFunction) → (function_code globals f).vars ≤ slots f + 4 }
    ensures numbers { (p : Program) → IsProgram p → All (λ (g : MidFn). function_in_range (lowered p).functions g ≡ true) (lowered p).functions }
{}

/// The functions are the program's in their order, with their units, the entries are the program's, and the initial contents
/// have at most as many bytes as its globals.
pub fn parts_law()
    ensures units { (p : Program) → map (λ (g : MidFn). g.unit) (lowered p).functions ≡ map (λ (f : TFunction). f.unit) p.functions }
    ensures entries { (p : Program) → (lowered p).entries ≡ p.entries }
    ensures init { (p : Program) → IsProgram p → length (lowered p).init ≤ globals_bytes p.globals }
{}

/// What holds of each program of the middle form, names and the size of blocks aside: the limits of functions, the names of
/// the entries, and where the data stack begins.
pub fn limits_law()
    ensures functions { (names : Names) (globals : List ℕ) (f : TFunction) → IsFunction names f → IsLimited (function_code globals f) }
    ensures entries { (p : Program) → IsProgram p → (lowered p).entries ≡ map (λ (g : MidFn). g.name) (filter (λ (g : MidFn). g.entry) (lowered p).functions) }
    ensures stack { (p : Program) → IsProgram p → (0x30000000 ≤ (lowered p).stack_base) × ((lowered p).stack_base ≤ 0x3000C000) × ((lowered p).stack_base % 8 ≡ 0) }
{}
