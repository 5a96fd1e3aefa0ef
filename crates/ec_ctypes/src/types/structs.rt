ghost use Rattle.std.specs.Prelude.{◌≡◌, [], ◌∷◌, ◌++◌, slice_get, option_and_then, IfSome, OnOk, OnErr};
ghost use Rattle.ec_ctypes.specs.Layout.{limited, IsSmall};
ghost use Rattle.ec_ctypes.specs.Sizes.{shape_at};

use crate::types::StructDef;
use crate::types::sizes::{Shape, struct_shape};
use ec_base::{List, OutOfMemory};
use std::alloc::Global;
use std::marker::Model;

/// The structs of a program, by their numbers, with the shape of each. Each shape is found once, as its struct is added,
/// since what a struct holds has lower numbers. Contracts see the list of the structs.
#[derive(Debug, Drop)]
pub struct Structs {
    definitions: List<StructDef>,
    /// The shape of each, or `None` where it has none within the limit.
    shapes: List<Option<Shape>>,
}

impl Model for Structs {
    ghost use Rattle.std.specs.Prelude.{◌≡◌, List as Sequence};
    ghost use Rattle.ec_ctypes.specs.declared.types.ty.StructDef.{StructDef as Definition};
    ghost use Rattle.ec_ctypes.specs.Layout.{kept_shapes};
    ghost use Rattle.ec_ctypes.specs.views.Types.{structs_view};
    ghost use Rattle.std.specs.Coded.{codes};
    ghost use Rattle.ec_ctypes.specs.contracts.types.ty.Ty as ty;

    ghost Value = { Sequence Definition };

    ghost coded = { Prim.hlevel (codes, ty.the_row.coded) };

    ghost view = { λ it. it.definitions };

    ghost invariant = { λ it. it.shapes ≡ kept_shapes (structs_view it.definitions) };
}

impl Structs {
    /// No structs. They take no memory.
    pub fn new(alloc: Global) -> Structs
        ensures { result ≡ [] }
    {
        Structs {
            definitions: List::new(alloc),
            shapes: List::new(alloc),
        }
    }

    /// The structs, in the order of their numbers.
    pub fn as_slice(&self) -> &[StructDef]
        ensures { result.now ≡ self.now }
    {
        self.definitions.as_slice()
    }

    /// Adds a struct, with the next number.
    pub fn push(&mut self, definition: StructDef) -> Result<(), OutOfMemory>
        ensures ok { OnOk result (self.new ≡ self.old ++ definition ∷ []) }
        ensures err { OnErr result (self.new ≡ self.old) }
    {
        let shape = struct_shape(self, definition.members.as_slice());
        self.shapes.push(shape)?;
        let pushed = self.definitions.push(definition);
        if pushed.is_err() {
            self.shapes.pop();
        }
        pushed
    }

    // The shape of the struct of this number, or `None` where it has none within the limit.
    pub(crate) fn shape(&self, id: u32) -> Option<Shape>
        ensures shape { result ≡ limited (shape_at self.now id) }
        ensures small { IfSome result IsSmall }
    {
        shape_at(self.shapes.as_slice(), id)
    }
}

// The shape at this number.
fn shape_at(shapes: &[Option<Shape>], id: u32) -> Option<Shape>
    ensures { result ≡ option_and_then (λ shape. shape) (slice_get shapes.now id) }
{
    match shapes.get(id as usize) {
        Some(shape) => *shape,
        None => None,
    }
}
