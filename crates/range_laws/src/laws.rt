//! Laws of numbers in range.

ghost use Rattle.std.specs.Prelude.{◌≡◌, ℕ, Bool, true, false, List, Option};
ghost use Rattle.cm_base.specs.declared.place.Place.{Place};
ghost use Rattle.c_ast.specs.declared.expr.Name.{Name};
ghost use Rattle.c_lex.specs.declared.token.Header.{Header};
ghost use Rattle.c_types.specs.declared.ctype.CType.{CType};
ghost use Rattle.c_types.specs.Kind.{is_function};
ghost use Rattle.c_types.specs.Sizes.{fits};
ghost use Rattle.c_tree.specs.declared.expr.BinOp.{BinOp};
ghost use Rattle.c_tree.specs.declared.expr.UnOp.{UnOp};
ghost use Rattle.c_tree.specs.declared.expr.Expr.{Expr};
ghost use Rattle.c_tree.specs.declared.program.TFunction.{TFunction};
ghost use Rattle.c_tree.specs.declared.stmt.Stmt.{Stmt};
ghost use Rattle.c_tree.specs.Numbers.{Around as Range, Names, expr_in_range, function_in_range, stmt_in_range};
ghost use Rattle.c_rows.specs.declared.calls.Arg.{Arg};
ghost use Rattle.c_rows.specs.declared.intrinsics.Intrinsic.{Intrinsic};
ghost use Rattle.c_rows.specs.Access as access;
ghost use Rattle.c_rows.specs.Arithmetic as arithmetic;
ghost use Rattle.c_rows.specs.Assign as assign;
ghost use Rattle.c_rows.specs.Calls as calls;
ghost use Rattle.c_rows.specs.Compare as compare;
ghost use Rattle.c_rows.specs.Intrinsics as intrinsics;
ghost use Rattle.c_rows.specs.Logic as logic;
ghost use Rattle.c_rows.specs.Pointers as pointers;
ghost use Rattle.c_rows.specs.Values as values;
ghost use Rattle.cmse_rules.specs.Pointers.{nonsecure_declared};
ghost use Rattle.c_derive.specs.declared.derivations.Derivation.{Derivation};
ghost use Rattle.c_derive.specs.declared.specifiers.Words.{Words};
ghost use Rattle.c_derive.specs.Derivations.{derived};
ghost use Rattle.c_derive.specs.Specifiers.{specified};
ghost use Rattle.c_scope.specs.declared.layout.Found.{Found};
ghost use Rattle.c_scope.specs.declared.tables.Layout.{Layout};
ghost use Rattle.c_scope.specs.declared.tables.Linkage.{Linkage};
ghost use Rattle.c_scope.specs.declared.tables.Scope.{Scope};
ghost use Rattle.c_scope.specs.declared.tables.Tables.{Tables};
ghost use Rattle.c_scope.specs.Blocks as blocks;
ghost use Rattle.c_scope.specs.FileScope as file_scope;
ghost use Rattle.c_scope.specs.Headers.{include};
ghost use Rattle.c_scope.specs.Layout as layout;
ghost use Rattle.c_scope.specs.Lookup as lookup;
ghost use Rattle.c_scope.specs.Tags as tags;
ghost use Rattle.later_laws.specs.Later.{AreSound};
ghost use Rattle.range_laws.specs.Few.{IsFit, derivations_few, few, members_few, words_few};
ghost use Rattle.range_laws.specs.Fits.{AreArgs, IsMade, IsTree, IsValue};
ghost use Rattle.range_laws.specs.Ranges.{Grows, IsWithin, NamesWithin, range};
ghost use Rattle.range_laws.specs.Steps.{Answers, Anything, Brings, Goes, HasFew, IsFew, IsLocal, IsObjectAt, Leads, Passes, TypeIsFew};
ghost use Rattle.range_laws.specs.Stood.{IsDeclared, IsDeclaredObject};

/// What is in range stays in range where there are more numbers.
pub fn wider_law()
    ensures exprs { (a b : Range) → IsWithin a b → (e : Expr) → expr_in_range a e ≡ true → expr_in_range b e ≡ true }
    ensures stmts { (a b : Range) → IsWithin a b → (x : Stmt) → stmt_in_range a x ≡ true → stmt_in_range b x ≡ true }
    ensures functions { (a b : Names) → NamesWithin a b → (f : TFunction) → function_in_range a f ≡ true → function_in_range b f ≡ true }
{}

/// What a name means is in range.
pub fn named_law()
    ensures exprs { (entry : Bool) (s : Tables) → IsFit s → (name : Name) → Answers (IsTree (range entry s)) (lookup.named s name) }
    ensures types { (s : Tables) → IsFit s → (name : Name) → Answers IsFew (lookup.type_named s name) }
    ensures members { (s : Tables) → IsFit s → (t : CType) (dot : Place) (name : Name) → Answers (λ (m : Found). few m.ctype ≡ true) (layout.member_of s t dot name) }
{}

/// An operator on values whose numbers are in range makes a value whose numbers are.
pub fn operator_law()
    ensures values { (a : Range) (e : Expr) (first : Place) → IsTree a e → Answers (IsMade a) (values.valued e first) }
    ensures binary { (a : Range) (op : BinOp) (place : Place) (x y : Expr) → IsValue a x → IsValue a y → Answers (IsMade a) (arithmetic.binary op place x y) }
    ensures shifted { (a : Range) (op : BinOp) (place : Place) (x y : Expr) → IsValue a x → IsValue a y → Answers (IsMade a) (arithmetic.shifted op place x y) }
    ensures unary { (a : Range) (op : UnOp) (place : Place) (e : Expr) → IsValue a e → Answers (IsMade a) (arithmetic.unary op place e) }
    ensures negated { (a : Range) (place : Place) (e : Expr) → IsValue a e → Answers (IsMade a) (arithmetic.negated place e) }
    ensures added { (a : Range) (place : Place) (x y : Expr) → IsValue a x → IsValue a y → Answers (IsMade a) (pointers.added place x y) }
    ensures subtracted { (a : Range) (place : Place) (x y : Expr) → IsValue a x → IsValue a y → Answers (IsMade a) (pointers.subtracted place x y) }
    ensures dereferenced { (a : Range) (place : Place) (p : Expr) → IsValue a p → Answers (IsMade a) (pointers.dereferenced place p) }
    ensures element { (a : Range) (place : Place) (x i : Expr) → IsValue a x → IsValue a i → Answers (IsMade a) (pointers.element place x i) }
    ensures ordered { (a : Range) (op : BinOp) (place : Place) (x y : Expr) → IsValue a x → IsValue a y → Answers (IsMade a) (compare.ordered op place x y) }
    ensures equated { (a : Range) (op : BinOp) (place : Place) (x y : Expr) → IsValue a x → IsValue a y → Answers (IsMade a) (compare.equated op place x y) }
    ensures either { (a : Range) (is_and : Bool) (place : Place) (x y : Expr) → IsValue a x → IsValue a y → Answers (IsMade a) (logic.both_or_either is_and place x y) }
    ensures chosen { (a : Range) (place : Place) (c x y : Expr) → IsValue a c → IsValue a x → IsValue a y → Answers (IsMade a) (logic.chosen place c x y) }
    ensures in_order { (a : Range) (place : Place) (x y : Expr) → IsValue a x → IsValue a y → IsMade a (logic.in_order place x y) }
{}

/// The same of operators on places, of which a function's name is none.
pub fn place_law()
    ensures address { (a : Range) (place : Place) (e : Expr) → IsTree a e → Answers (IsMade a) (access.address place e) }
    ensures members { (a : Range) (place : Place) (e : Expr) (t : CType) (offset : ℕ) → IsValue a e → few t ≡ true → IsMade a (access.member place e t offset) }
    ensures cast { (a : Range) (place : Place) (t : CType) (e : Expr) → few t ≡ true → IsValue a e → Answers (IsMade a) (access.cast place t e) }
    ensures assigned { (a : Range) (place : Place) (to e : Expr) (first : Place) → IsTree a to → IsTree a e → Answers (IsMade a) (assign.assigned place to e first) }
    ensures assigned_by { (a : Range) (op : BinOp) (place : Place) (to v : Expr) → IsTree a to → IsValue a v → Answers (IsMade a) (assign.assigned_by op place to v) }
    ensures stepped { (a : Range) (place : Place) (e : Expr) (is_up old : Bool) → IsTree a e → Answers (IsMade a) (assign.stepped place e is_up old) }
{}

/// A call has as many arguments as its function has parameters, and at most four where that is Non-secure.
pub fn call_law()
    ensures called { (a : Range) (place : Place) (f : Expr) (args : List Arg) → IsTree a f → AreArgs a args → Answers (IsMade a) (calls.called place f args) }
    ensures intrinsics { (a : Range) (place : Place) (i : Intrinsic) (args : List Arg) → AreArgs a args → Answers (IsMade a) (intrinsics.intrinsic_called place i args a.entry) }
{}

/// Types that are named and derived have Non-secure function types of at most four parameters only.
pub fn few_law()
    ensures words { (w : Words) (first : Place) → words_few w ≡ true → Answers IsFew (specified w first) }
    ensures derivations { (t : CType) (ds : List Derivation) (place : Place) → few t ≡ true → derivations_few ds ≡ true → Answers IsFew (derived t ds place) }
    ensures nonsecure { (t : CType) (place : Place) → few t ≡ true → Answers IsFew (nonsecure_declared t place) }
{}

/// Declarations in a function only add numbers.
pub fn block_law()
    ensures locals { (scope : Scope) (name : Name) (t : CType) (initialised : Bool) (s : Tables) → IsFit s → few t ≡ true → Goes IsLocal s (blocks.declare_local scope name t initialised s) }
    ensures parameters { (scope : Scope) (name : Option Name) (t : CType) (first : Place) (s : Tables) → IsFit s → few t ≡ true → Goes Anything s (blocks.declare_parameter scope name t first s) }
    ensures completed { (n : ℕ) (t : CType) (s : Tables) → IsFit s → few t ≡ true → fits t ≡ true → Leads s (blocks.complete_local n t s) }
    ensures closed { (scope : Scope) (s : Tables) → IsFit s → Leads s (blocks.close_block scope s) }
    ensures lists { (outer : Scope) (s t : Tables) → Grows s t → IsFit t → Leads s (blocks.close_parameters (blocks.open_parameters outer s) t) }
{}

/// Tags and members only add types.
pub fn tag_law()
    ensures used { (scope : Scope) (name : Name) (s : Tables) → IsFit s → Goes TypeIsFew s (tags.struct_use scope name s) }
    ensures declared { (scope : Scope) (name : Name) (s : Tables) → IsFit s → Goes TypeIsFew s (tags.declare_struct scope name s) }
    ensures begun { (tag : Option Name) (s : Tables) → IsFit s → Goes Anything s (tags.begin_struct tag s) }
    ensures ended { (n : ℕ) (l : Layout) (place : Place) (s : Tables) → IsFit s → members_few l.members ≡ true → Goes TypeIsFew s (tags.end_struct n l place s) }
    ensures enums { (tag : Option Name) (s : Tables) → IsFit s → Goes Anything s (tags.begin_enum tag s) }
    ensures members { (name : Name) (t : CType) (l : Layout) → few t ≡ true → members_few l.members ≡ true → Answers HasFew (layout.added name t l) }
{}

/// Declarations at file scope only add functions and globals, and a type that is completed stays that of a global.
pub fn file_law()
    ensures typedefs { (name : Name) (t : CType) (s : Tables) → IsFit s → few t ≡ true → Goes Anything s (file_scope.declare_typedef name t s) }
    ensures constants { (name : Name) (n : ℕ) (s : Tables) → IsFit s → Goes Anything s (file_scope.declare_constant name n s) }
    ensures objects { (name : Name) (t : CType) (how : Linkage) (initialised : Bool) (s : Tables) → IsFit s → few t ≡ true → is_function t ≡ false → Passes IsObjectAt s (file_scope.declare_object name t how initialised s) }
    ensures functions { (name : Name) (t : CType) (how : Linkage) (s : Tables) → IsFit s → few t ≡ true → Passes Anything s (file_scope.declare_function name t how s) }
    ensures defined { (n : ℕ) (s : Tables) → IsFit s → Brings s (file_scope.define_function n s) }
    ensures completed { (n : ℕ) (t : CType) (s : Tables) → IsFit s → few t ≡ true → is_function t ≡ false → IsObjectAt n s → Brings s (file_scope.complete_object n t s) }
{}

/// A function or a global that is declared stands under its number with its name and its type. A global is complete unless the
/// declaration is extern or its initialiser gives its length.
pub fn stood_law()
    ensures objects { (name : Name) (t : CType) (how : Linkage) (initialised : Bool) (s : Tables) → AreSound s → Answers (λ p. IsDeclaredObject name t how initialised p.0 p.1) (file_scope.declare_object name t how initialised s) }
    ensures functions { (name : Name) (t : CType) (how : Linkage) (s : Tables) → AreSound s → Answers (λ p. IsDeclared name t p.0 p.1) (file_scope.declare_function name t how s) }
{}

/// A unit begins with fit tables, and headers only add names.
pub fn header_law()
    ensures start { IsFit lookup.nothing × AreSound lookup.nothing }
    ensures headers { (h : Header) (place : Place) (s : Tables) → IsFit s → Goes Anything s (include h place s) }
{}
