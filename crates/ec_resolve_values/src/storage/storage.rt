//! What is declared so far.

ghost use Rattle.std.specs.Prelude.{◌≡◌, ◌+◌, length, map, option_map, slice_get, IfOk, OnOk};
ghost use Rattle.ec_code.specs.Trees.{leaf_view};
ghost use Rattle.ec_code.specs.Views.{function_view, program_view, size_view};
ghost use Rattle.ec_resolving_defs.specs.Operands.{place_in};
ghost use Rattle.ec_resolving_defs.specs.Programs.{program_by};
ghost use Rattle.ec_resolving_defs.specs.Storage as of;
ghost use Rattle.ec_resolve_values.specs.storage.Stored.{block_view, call_view, form_view, fresh, site_view, storage_of};

use crate::storage::block::BlockObjects;
use crate::storage::embedded::EmbeddedForm;
use crate::storage::library::LibraryCall;
use crate::storage::names::Names;
use crate::storage::resolved::Resolved;
use crate::storage::site::Site;
use ec_base::{List, OutOfMemory};
use ec_code::{Function, GlobalVariable, Leaf, Literal, ObjectSize, Program};
use std::alloc::Global;
use std::mem;

/// Where the objects of a program are.
#[derive(Drop)]
pub struct Storage {
    pub(crate) alloc: Global,
    /// The functions that the program defines, which have their numbers in this order.
    pub(crate) defined: Names,
    /// How many objects stand before the first literal's: `sqlca` and the globals.
    pub(crate) before_literals: u32,
    /// Where the declarations so far are, by their numbers.
    pub(crate) sites: List<Site>,
    pub(crate) globals: List<GlobalVariable>,
    /// The literals that make an object.
    pub(crate) literals: List<Literal>,
    /// The calls of the library.
    pub(crate) calls: List<LibraryCall>,
    /// The functions so far.
    pub(crate) functions: List<Function>,
    /// The embedded statements, directives too.
    pub(crate) statements: List<EmbeddedForm>,
    pub(crate) block: BlockObjects,
}

/// The number that a list's next element has, counted from `first` on.
fn number_behind(first: u32, count: usize) -> Result<u32, OutOfMemory>
    ensures { IfOk result (λ n. n ≡ count + first) }
{
    if count > u32::MAX as usize {
        // Out of reach, which isn't proved: a source has at most 2^22 tokens, so it has fewer of each.
        return Err(OutOfMemory);
    }
    match first.checked_add(count as u32) {
        Some(number) => Ok(number),
        // Out of reach, as above.
        None => Err(OutOfMemory),
    }
}

#[tactic(auto, unfolding(crate::specs::storage::Stored::storage_of))]
impl Storage {
    /// Nothing is declared so far, these functions are defined, and so many objects stand before the first literal's. It takes
    /// no memory.
    pub fn new(alloc: Global, defined: Names, before_literals: u32) -> Storage
        ensures { storage_of result ≡ fresh defined before_literals }
    {
        Storage {
            alloc,
            defined,
            before_literals,
            sites: List::new(alloc),
            globals: List::new(alloc),
            literals: List::new(alloc),
            calls: List::new(alloc),
            functions: List::new(alloc),
            statements: List::new(alloc),
            block: BlockObjects {
                below: 0,
                count: 0,
                sizes: List::new(alloc),
            },
        }
    }

    /// The number of the function of this name.
    pub fn function(&self, name: &[u8]) -> Result<u32, OutOfMemory>
        ensures { IfOk result (λ number. number
            ≡ place_in name.now (storage_of self.now).defined) }
    {
        self.defined.place(name)
    }

    /// Where the declaration of this number is.
    pub fn site(&self, number: u32) -> Option<Site>
        ensures { option_map site_view result ≡ slice_get (storage_of self.now).sites number }
    {
        self.sites.get(number as usize).copied()
    }

    /// Where the next declaration is: the next global, or the next object of the innermost block.
    pub fn next_site(&self, is_global: bool) -> Result<Site, OutOfMemory>
        ensures { IfOk result (λ site. site_view site
            ≡ of.next_site is_global (storage_of self.now)) }
    {
        if is_global {
            Ok(Site::Numbered(number_behind(2, self.globals.len())?))
        } else {
            Ok(Site::Slotted(self.block.next_slot()?))
        }
    }

    /// One declaration more is here.
    pub fn add_site(&mut self, site: Site) -> Result<(), OutOfMemory>
        ensures { OnOk result (storage_of self.new
            ≡ of.with_site (site_view site) (storage_of self.old)) }
    {
        self.sites.push(site)?;
        Ok(())
    }

    /// One global more.
    pub fn add_global(&mut self, global: GlobalVariable) -> Result<(), OutOfMemory>
        ensures { OnOk result (storage_of self.new ≡ of.with_global global (storage_of self.old)) }
    {
        self.globals.push(global)?;
        Ok(())
    }

    /// One object more of the innermost block.
    pub fn add_object(&mut self, size: ObjectSize) -> Result<(), OutOfMemory>
        ensures { OnOk result (storage_of self.new
            ≡ of.with_object_of (size_view size) (storage_of self.old)) }
    {
        self.block.sizes.push(size)?;
        Ok(())
    }

    /// One function more that is defined.
    pub fn add_function(&mut self, function: Function) -> Result<(), OutOfMemory>
        ensures { OnOk result (storage_of self.new
            ≡ of.with_function (function_view function) (storage_of self.old)) }
    {
        self.functions.push(function)?;
        Ok(())
    }

    /// The object of the next literal.
    pub fn literal_object(&self) -> Result<Leaf, OutOfMemory>
        ensures { IfOk result (λ leaf. leaf_view leaf ≡ of.literal_object (storage_of self.now)) }
    {
        let behind = number_behind(1, self.literals.len())?;
        match behind.checked_add(self.before_literals) {
            Some(number) => Ok(Leaf::Object(number)),
            // Out of reach, which isn't proved: a source has at most 2^22 tokens, so it has fewer objects.
            None => Err(OutOfMemory),
        }
    }

    /// One literal more that makes an object. There is no memory for one of 2^24 bytes.
    pub fn add_literal(&mut self, text: &[u8]) -> Result<(), OutOfMemory>
        ensures { OnOk result (storage_of self.new
            ≡ of.with_literal text.now (storage_of self.old)) }
    {
        match Literal::new(List::from_slice(self.alloc, text)?) {
            Some(literal) => {
                self.literals.push(literal)?;
                Ok(())
            }
            // Out of reach, which isn't proved: a literal is shorter than its source, which has at most 2^24 bytes.
            None => Err(OutOfMemory),
        }
    }

    /// The last literal makes no object.
    pub fn take_back_literal(&mut self)
        ensures { storage_of self.new ≡ of.without_last_literal (storage_of self.old) }
    {
        let _last = self.literals.pop();
    }

    /// How many calls of the library there are so far.
    pub fn calls(&self) -> Result<u32, OutOfMemory>
        ensures { IfOk result (λ n. n ≡ length (storage_of self.now).calls) }
    {
        number_behind(0, self.calls.len())
    }

    /// One call of the library more.
    pub fn add_call(&mut self, call: LibraryCall) -> Result<(), OutOfMemory>
        ensures { OnOk result (storage_of self.new
            ≡ of.with_call (call_view call) (storage_of self.old)) }
    {
        self.calls.push(call)?;
        Ok(())
    }

    /// One embedded statement more.
    pub fn add_statement(&mut self, form: EmbeddedForm) -> Result<(), OutOfMemory>
        ensures { OnOk result (storage_of self.new
            ≡ of.with_statement (form_view form) (storage_of self.old)) }
    {
        self.statements.push(form)?;
        Ok(())
    }

    /// A block of so many objects begins. What was known of the block round it is handed out, for `leave_block`.
    pub fn enter_block(&mut self, count: u32) -> Result<BlockObjects, OutOfMemory>
        ensures inside { OnOk result (storage_of self.new
            ≡ of.inside_block count (storage_of self.old)) }
        ensures outer { IfOk result (λ outer. block_view outer ≡ (storage_of self.old).block) }
    {
        let below = self.block.above()?;
        let inner = BlockObjects {
            below,
            count,
            sizes: List::new(self.alloc),
        };
        Ok(mem::replace(&mut self.block, inner))
    }

    /// The innermost block ends, and this one is round it: the sizes of the objects of the block that ends.
    pub fn leave_block(&mut self, outer: BlockObjects) -> List<ObjectSize>
        ensures outer { storage_of self.new
            ≡ of.back_in_block (block_view outer) (storage_of self.old) }
        ensures sizes { map size_view result ≡ (storage_of self.old).block.sizes }
    {
        let inner = mem::replace(&mut self.block, outer);
        inner.sizes
    }

    /// The program, and its calls of the library.
    pub fn into_resolved(self) -> Result<Resolved, OutOfMemory>
        ensures program { IfOk result
            (λ it. program_view it.program ≡ program_by (storage_of self)) }
        ensures calls { IfOk result (λ it. map call_view it.calls ≡ (storage_of self).calls) }
    {
        let main = self.defined.place(b"main".as_slice())?;
        let program = Program {
            globals: self.globals,
            literals: self.literals,
            functions: self.functions,
            main,
        };
        Ok(Resolved {
            program,
            calls: self.calls,
        })
    }
}
