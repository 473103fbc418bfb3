//! What kind of type a type is.

ghost use Rattle.std.specs.Prelude.{◌≡◌, option_copied};
ghost use Rattle.c_types.specs.Kind as spec;

use crate::arith::Arith;
use crate::ctype::{CType, Shape};

impl CType {
    pub fn is_void(&self) -> bool
        ensures { result ≡ spec.is_void self.now }
    {
        match &self.shape {
            Shape::Void => true,
            _ => false,
        }
    }

    /// The arithmetic type that it is. All arithmetic types are integer types.
    pub fn arithmetic(&self) -> Option<Arith>
        ensures { result ≡ spec.arithmetic self.now }
    {
        match &self.shape {
            Shape::Arith(a) => Some(*a),
            _ => None,
        }
    }

    pub fn is_arithmetic(&self) -> bool
        ensures { result ≡ spec.is_arithmetic self.now }
    {
        match &self.shape {
            Shape::Arith(_) => true,
            _ => false,
        }
    }

    /// The type that it points to, where it is a pointer.
    pub fn referenced(&self) -> Option<&CType>
        ensures { option_copied result ≡ spec.referenced self.now }
    {
        match &self.shape {
            Shape::Pointer(to) => Some(to.get()),
            _ => None,
        }
    }

    pub fn is_pointer(&self) -> bool
        ensures { result ≡ spec.is_pointer self.now }
    {
        match &self.shape {
            Shape::Pointer(_) => true,
            _ => false,
        }
    }

    pub fn is_void_pointer(&self) -> bool
        ensures { result ≡ spec.is_void_pointer self.now }
    {
        match &self.shape {
            Shape::Pointer(to) => to.get().is_void(),
            _ => false,
        }
    }

    /// Arithmetic or a pointer (C11 6.2.5, paragraph 21).
    pub fn is_scalar(&self) -> bool
        ensures { result ≡ spec.is_scalar self.now }
    {
        self.is_arithmetic() || self.is_pointer()
    }

    /// The type of its elements, where it is an array.
    pub fn element(&self) -> Option<&CType>
        ensures { option_copied result ≡ spec.element self.now }
    {
        match &self.shape {
            Shape::Array { of, .. } => Some(of.get()),
            _ => None,
        }
    }

    pub fn is_array(&self) -> bool
        ensures { result ≡ spec.is_array self.now }
    {
        match &self.shape {
            Shape::Array { .. } => true,
            _ => false,
        }
    }

    pub fn is_struct(&self) -> bool
        ensures { result ≡ spec.is_struct self.now }
    {
        match &self.shape {
            Shape::Struct { .. } => true,
            _ => false,
        }
    }

    pub fn is_function(&self) -> bool
        ensures { result ≡ spec.is_function self.now }
    {
        match &self.shape {
            Shape::Function { .. } => true,
            _ => false,
        }
    }

    /// A function that Non-secure code has.
    pub fn is_nonsecure_function(&self) -> bool
        ensures { result ≡ spec.is_nonsecure_function self.now }
    {
        match &self.shape {
            Shape::Function { nonsecure, .. } => *nonsecure,
            _ => false,
        }
    }

    /// An object type, complete or not: any but a function type (C11 6.2.5, paragraph 1).
    pub fn is_object(&self) -> bool
        ensures { result ≡ spec.is_object self.now }
    {
        !self.is_function()
    }

    /// Whether a function may give it: any but an array or a function (C11 6.7.6.3, paragraph 1).
    pub fn is_result(&self) -> bool
        ensures { result ≡ spec.is_result self.now }
    {
        !self.is_array() && !self.is_function()
    }

    /// Void, functions, arrays without a length or of what is incomplete, and structs whose members aren't known yet are
    /// incomplete.
    pub fn is_complete(&self) -> bool
        ensures { result ≡ spec.is_complete self.now }
    {
        match &self.shape {
            Shape::Void => false,
            Shape::Arith(_) => true,
            Shape::Pointer(_) => true,
            Shape::Array { of, len } => len.is_some() && of.get().is_complete(),
            Shape::Struct { size, .. } => *size != 0,
            Shape::Function { .. } => false,
        }
    }
}
