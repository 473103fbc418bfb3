//! Types derived from other types (C11 6.2.5, paragraph 20), and types adjusted.

ghost use Rattle.std.specs.Prelude.{◌≡◌, IfOk};
ghost use Rattle.c_types.specs.Derived as spec;

use crate::arith::Arith;
use crate::ctype::{CType, Shape};
use cm_base::{List, NoMemory, Shared};
use std::alloc::Global;

impl CType {
    /// The type of this shape without qualifiers.
    pub fn plain(shape: Shape) -> CType
        ensures { result ≡ spec.plain shape }
    {
        CType {
            shape,
            is_const: false,
            is_volatile: false,
        }
    }

    /// An arithmetic type without qualifiers.
    pub fn arith(a: Arith) -> CType
        ensures { result ≡ spec.arith_type a }
    {
        CType::plain(Shape::Arith(a))
    }

    /// The type of pointers to `referenced`.
    pub fn pointer_to(referenced: Shared<CType>) -> CType
        ensures { result ≡ spec.pointer_to referenced }
    {
        CType::plain(Shape::Pointer(referenced))
    }

    /// The type of arrays of so many elements.
    pub fn array_of(element: Shared<CType>, len: Option<u32>) -> CType
        ensures { result ≡ spec.array_of element len }
    {
        CType::plain(Shape::Array { of: element, len })
    }

    /// The type of functions that take `params` and give `gives`.
    pub fn function(gives: Shared<CType>, params: List<CType>, nonsecure: bool) -> CType
        ensures { result ≡ spec.function gives params nonsecure }
    {
        CType::plain(Shape::Function {
            gives,
            params,
            nonsecure,
        })
    }

    /// The type without its own qualifiers, as a value has it (C11 6.3.2.1, paragraph 2).
    pub fn unqualified(&self, alloc: Global) -> Result<CType, NoMemory>
        ensures { IfOk result (λ t. t ≡ spec.unqualified self.now) }
    {
        Ok(CType::plain(self.shape.share(alloc)?))
    }

    /// The type with these qualifiers beside its own. An array's go to its elements (C11 6.7.3, paragraph 9).
    pub fn qualified(
        &self,
        alloc: Global,
        is_const: bool,
        is_volatile: bool,
    ) -> Result<CType, NoMemory>
        ensures { IfOk result (λ t. t ≡ spec.qualified is_const is_volatile self.now) }
    {
        match &self.shape {
            Shape::Array { of, len } => {
                let element = of.get().qualified(alloc, is_const, is_volatile)?;
                Ok(CType {
                    shape: Shape::Array {
                        of: Shared::new(alloc, element)?,
                        len: *len,
                    },
                    is_const: self.is_const,
                    is_volatile: self.is_volatile,
                })
            }
            _ => Ok(CType {
                shape: self.shape.share(alloc)?,
                is_const: self.is_const || is_const,
                is_volatile: self.is_volatile || is_volatile,
            }),
        }
    }

    /// The type to which an array or a function is converted where its value is taken: a pointer to the first element, or to
    /// the function (C11 6.3.2.1, paragraphs 3 and 4). Any other type is itself. A parameter's type is adjusted in the same
    /// way (C11 6.7.6.3, paragraphs 7 and 8).
    pub fn decayed(&self, alloc: Global) -> Result<CType, NoMemory>
        ensures { IfOk result (λ t. t ≡ spec.decayed self.now) }
    {
        match &self.shape {
            Shape::Array { of, .. } => Ok(CType::pointer_to(of.share()?)),
            Shape::Function { .. } => {
                let function = self.share(alloc)?;
                Ok(CType::pointer_to(Shared::new(alloc, function)?))
            }
            _ => self.share(alloc),
        }
    }

    /// What a function type has for a parameter of this type: the type adjusted, without its own qualifiers (C11 6.7.6.3,
    /// paragraph 15).
    pub fn parameter(&self, alloc: Global) -> Result<CType, NoMemory>
        ensures { IfOk result (λ t. t ≡ spec.parameter self.now) }
    {
        let CType { shape, .. } = self.decayed(alloc)?;
        Ok(CType::plain(shape))
    }
}
