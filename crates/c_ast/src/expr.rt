//! Expressions, and the types that they name.

use c_names::Ident;
use cm_base::{Bytes, List, Place};
use sqlite_items::Boxed;

/// A name where it stands.
#[derive(Drop)]
pub struct Name {
    pub place: Place,
    pub text: Ident,
}

/// An operator between two operands.
#[derive(Clone, Copy, Debug, PartialEq, Eq)]
pub enum BinOp {
    /// `||`
    OrElse,
    /// `&&`
    AndThen,
    /// `|`
    BitOr,
    /// `^`
    BitXor,
    /// `&`
    BitAnd,
    /// `==`
    Equal,
    /// `!=`
    NotEqual,
    /// `<`
    Less,
    /// `>`
    Greater,
    /// `<=`
    LessEqual,
    /// `>=`
    GreaterEqual,
    /// `<<`
    Shl,
    /// `>>`
    Shr,
    /// `+`
    Add,
    /// `-`
    Sub,
    /// `*`
    Mul,
    /// `/`
    Div,
    /// `%`
    Rem,
}

/// An operator that assigns.
#[derive(Clone, Copy, Debug, PartialEq, Eq)]
pub enum AssignOp {
    /// `=`
    Set,
    /// `*=`
    Mul,
    /// `/=`
    Div,
    /// `%=`
    Rem,
    /// `+=`
    Add,
    /// `-=`
    Sub,
    /// `<<=`
    Shl,
    /// `>>=`
    Shr,
    /// `&=`
    And,
    /// `^=`
    Xor,
    /// `|=`
    Or,
}

/// The type of a number's constant.
#[derive(Clone, Copy, Debug, PartialEq, Eq)]
pub struct NumberType {
    /// The type is unsigned or unsigned long.
    pub unsigned: bool,
    /// The type is long or unsigned long.
    pub long: bool,
}

/// An operator before its operand.
#[derive(Clone, Copy, Debug, PartialEq, Eq)]
pub enum UnOp {
    /// `&`
    Address,
    /// `*`
    Deref,
    /// `+`
    Plus,
    /// `-`
    Minus,
    /// `~`
    Complement,
    /// `!`
    Not,
}

/// `++` or `--`.
#[derive(Clone, Copy, Debug, PartialEq, Eq)]
pub enum StepOp {
    Increment,
    Decrement,
}

/// A word among specifiers.
#[derive(Clone, Copy, Debug, PartialEq, Eq)]
pub enum SpecWord {
    Typedef,
    Extern,
    Static,
    Inline,
    Const,
    Volatile,
    Void,
    Char,
    Short,
    Int,
    Long,
    Signed,
    Unsigned,
}

/// One attribute, as `section(".noinit")`.
#[derive(Drop)]
pub enum One {
    /// NAME
    Plain(Name),
    /// NAME `(` STRING `)`
    With(Name, Bytes),
}

/// `__attribute__ (( one, .. ))`. The place is that of `__attribute__`.
#[derive(Drop)]
pub struct Attr {
    pub place: Place,
    pub list: List<One>,
}

/// What stands before a declarator's name.
#[derive(Drop)]
pub enum Star {
    Star(Place),
    Const(Place),
    Volatile(Place),
    Attr(Attr),
}

/// An expression. The place of an operation is that of its operator, and that of every other
/// expression is its first token's.
#[cycle(syntax)]
#[derive(Drop)]
pub enum Expr {
    Name(Name),
    Number(Place, u32, NumberType),
    Char(Place, u8),
    Str(Place, Bytes),
    /// `(` expr `)`
    Group(Place, Boxed<Expr>),
    /// A primary and what is done to it, from left to right; at least one.
    Postfix(Boxed<Expr>, List<Access>),
    /// `++` or `--` before its operand.
    Step(Place, StepOp, Boxed<Expr>),
    Unary(Place, UnOp, Boxed<Expr>),
    SizeofExpr(Place, Boxed<Expr>),
    SizeofType(Place, Boxed<TypeName>),
    Cast(Place, Boxed<TypeName>, Boxed<Expr>),
    /// Operands joined by operators of one level, from left to right; at least one operator.
    Binary(Boxed<Expr>, List<Link>),
    /// `a ? b : c`
    Choice(Place, Boxed<Expr>, Boxed<Expr>, Boxed<Expr>),
    Assign(Place, AssignOp, Boxed<Expr>, Boxed<Expr>),
    /// The first expression, and those after the commas; at least one.
    Comma(Boxed<Expr>, List<Next>),
}

/// An operator and its right operand.
#[cycle(syntax)]
#[derive(Drop)]
pub struct Link {
    pub place: Place,
    pub op: BinOp,
    pub operand: Expr,
}

/// A comma and the expression after it.
#[cycle(syntax)]
#[derive(Drop)]
pub struct Next {
    pub place: Place,
    pub value: Expr,
}

/// What is done to an expression by what stands after it.
#[cycle(syntax)]
#[derive(Drop)]
pub enum Access {
    /// `[` expr `]`
    Index(Place, Boxed<Expr>),
    /// `(` arguments `)`
    Call(Place, List<Expr>),
    /// `.` NAME
    Member(Place, Name),
    /// `->` NAME
    Arrow(Place, Name),
    /// `++` or `--`
    Step(Place, StepOp),
}

/// A type as a cast or `sizeof` names it.
#[cycle(syntax)]
#[derive(Drop)]
pub struct TypeName {
    pub specs: List<Spec>,
    pub declarator: Abstract,
}

/// A specifier.
#[cycle(syntax)]
#[derive(Drop)]
pub enum Spec {
    Word(Place, SpecWord),
    /// A name that a typedef declares.
    TypeName(Name),
    Struct(Boxed<StructSpec>),
    Enum(Boxed<EnumSpec>),
    Attr(Attr),
}

/// A `struct` with its place and its tag, which a body may lack.
#[cycle(syntax)]
#[derive(Drop)]
pub enum StructSpec {
    /// `struct` [ NAME ] `{` member .. `}`
    Body(Place, Option<Name>, List<Member>),
    /// `struct` NAME
    Tag(Place, Name),
}

/// Members of a struct.
#[cycle(syntax)]
#[derive(Drop)]
pub enum Member {
    /// specifiers declarator `,` .. `;`
    Declares(List<Spec>, List<Declarator>),
}

/// An `enum` with its place and its tag, which a body may lack.
#[cycle(syntax)]
#[derive(Drop)]
pub enum EnumSpec {
    /// `enum` [ NAME ] `{` enumerator `,` .. `}`
    Body(Place, Option<Name>, List<Enumerator>),
    /// `enum` NAME
    Tag(Place, Name),
}

/// NAME [ `=` value ]
#[cycle(syntax)]
#[derive(Drop)]
pub struct Enumerator {
    pub name: Name,
    pub value: Option<Boxed<Expr>>,
}

/// A declarator: the name that it declares, and what stands around that name.
#[cycle(syntax)]
#[derive(Drop)]
pub struct Declarator {
    pub name: Name,
    pub form: Abstract,
}

/// What stands after a declarator's name.
#[cycle(syntax)]
#[derive(Drop)]
pub enum Suffix {
    /// `[` [ length ] `]`
    Array(Place, Option<Boxed<Expr>>),
    /// `(` [ parameters ] `)`
    Params(Place, Params),
}

/// The parameters of a function type.
#[cycle(syntax)]
#[derive(Drop)]
pub enum Params {
    /// `()`
    Empty,
    /// `(void)`
    Void(Place),
    List(List<Param>),
}

/// A parameter, with a name or without one.
#[cycle(syntax)]
#[derive(Drop)]
pub enum Param {
    Named(List<Spec>, Declarator),
    Unnamed(List<Spec>, Abstract),
}

/// A declarator without its name.
#[cycle(syntax)]
#[derive(Drop)]
pub enum Abstract {
    /// stars, the name or nothing, suffixes
    Plain(List<Star>, List<Suffix>),
    /// stars `(` declarator `)` suffixes. The place is that of `(`.
    Group(List<Star>, Place, Boxed<Abstract>, List<Suffix>),
}
