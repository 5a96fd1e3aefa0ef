//! Types of C.

use crate::printer::Printer;
use ec_base::OutOfMemory;
use ec_ctypes::Ty;

impl Printer {
    /// Prints a type: a word, or a form of the type that it is made from.
    pub fn ty(&mut self, ty: &Ty) -> Result<(), OutOfMemory> {
        match ty {
            Ty::Void => self.atom("void"),
            Ty::Bool => self.atom("bool"),
            Ty::Char => self.atom("char"),
            Ty::UChar => self.atom("unsigned-char"),
            Ty::Short => self.atom("short"),
            Ty::UShort => self.atom("unsigned-short"),
            Ty::Int => self.atom("int"),
            Ty::UInt => self.atom("unsigned-int"),
            Ty::Long => self.atom("long"),
            Ty::ULong => self.atom("unsigned-long"),
            Ty::LLong => self.atom("long-long"),
            Ty::ULLong => self.atom("unsigned-long-long"),
            Ty::Ptr(to) => {
                self.open("pointer")?;
                self.ty(to.get())?;
                self.close()
            }
            Ty::Array(element, count) => {
                self.open("array")?;
                self.ty(element.get())?;
                self.number(*count)?;
                self.close()
            }
            Ty::Struct(number) => {
                self.open("struct")?;
                self.number(u64::from(*number))?;
                self.close()
            }
        }
    }
}
