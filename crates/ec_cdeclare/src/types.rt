//! Types (ISO/IEC 9899:1999, 6.7.2 and 6.7.6). The rules take the reader of the members of structs, which stand one
//! level deeper, as a parameter, so that each is proved by itself.

ghost use Rattle.std.specs.Prelude.{◌≡◌, ◌∷◌, [], IfOk, OnOk};
ghost use Rattle.ec_ctypes.specs.trees.Exprs as tree;
ghost use Rattle.ec_ctypes.specs.views.Exprs.{base_view, decls_view};
ghost use Rattle.ec_grammar.specs.ReadDeclarations as spec;
ghost use Rattle.ec_grammar.specs.ReadDeclarations.{nested};
ghost use Rattle.ec_grammar.specs.declared.kind.Kind.TheVariants as kind;
ghost use Rattle.ec_language.specs.Syntax.{limits};
ghost use Rattle.ec_cursor.specs.Nests.{NestsMembers};
ghost use Rattle.ec_cursor.specs.Parts.{decls_option, each_decl, type_view};
ghost use Rattle.ec_cursor.specs.States.{Reading, within};

use ec_base::{Boxed, List, Name, OutOfMemory, beside};
use ec_ctypes::{Base, Decl, Punct};
use ec_cursor::{Counted, Cursor, copy_name, list_of};
use ec_grammar::{Failure, Kind};
use std::alloc::Global;

#[derive(Clone, Copy)]
pub struct Types<M> {
    pub alloc: Global,
    /// How many levels are left where the types stand.
    pub levels: u32,
    pub members: M,
}

/// Any number of `const` (ISO/IEC 9899:1999, 6.7.3).
fn constants(cursor: &mut Cursor<'_>) -> Result<(), Failure>
    ensures { Reading (λ u. u) spec.constants cursor.old result cursor.new }
{
    for _turn in 0..cursor.left() {
        if !cursor.eat(Kind::Const) {
            return Ok(());
        }
    }
    Ok(())
}

/// Further words of a type, and `const` among them.
fn more_words(
    alloc: Global,
    cursor: &mut Cursor<'_>,
    mut found: List<Name>,
) -> Result<List<Name>, Failure>
    ensures { Reading (λ ws. ws) (spec.more_words found) cursor.old result cursor.new }
{
    for _turn in 0..cursor.left() {
        match cursor.peek() {
            Kind::Const => {
                cursor.expect(Kind::Const)?;
            }
            Kind::TypeWord => {
                let word = cursor.expect(Kind::TypeWord)?;
                found.push(copy_name(alloc, &word.tok)?)?;
            }
            _ => return Ok(found),
        }
    }
    Ok(found)
}

/// How many stars stand before a name, each with its `const` behind it (ISO/IEC 9899:1999, 6.7.5.1).
pub fn stars(cursor: &mut Cursor<'_>) -> Result<u32, Failure>
    ensures { Reading (λ n. n) (spec.stars limits) cursor.old result cursor.new }
{
    let mut found = 0u32;
    for _turn in 0..cursor.left() {
        if !cursor.sees(Kind::Mark(Punct::Star)) {
            return Ok(found);
        }
        cursor.expect_counted(Counted::Derivations, Kind::Mark(Punct::Star))?;
        constants(cursor)?;
        found += 1;
    }
    Ok(found)
}

fn words(words: List<Name>) -> Base
    ensures { base_view result ≡ tree.words words }
{
    Base::Words(words)
}

fn varchar() -> Base
    ensures { base_view result ≡ tree.varchar }
{
    Base::Varchar
}

fn tag_base(alloc: Global, tag: Name, members: Option<List<Decl>>) -> Result<Base, OutOfMemory>
    ensures { IfOk result (λ b. base_view b ≡ spec.tag_base tag (decls_option members)) }
{
    match members {
        Some(members) => {
            let members = Boxed::new(alloc, members)?;
            Ok(Base::Struct(Some(Boxed::new(alloc, tag)?), members))
        }
        None => Ok(Base::Tag(tag)),
    }
}

fn nameless(alloc: Global, members: List<Decl>) -> Result<Base, OutOfMemory>
    ensures { IfOk result (λ b. base_view b ≡ tree.struct_base None (decls_view members)) }
{
    Ok(Base::Struct(None, Boxed::new(alloc, members)?))
}

impl<M: Fn(Global, &mut Cursor<'_>, u32) -> Result<List<Decl>, Failure>> Types<M> {
    fn nested_members(&self, cursor: &mut Cursor<'_>) -> Result<List<Decl>, Failure>
        requires { NestsMembers self.now.levels (M.pre self.now.members) (M.post self.now.members) }
        ensures { Reading each_decl (nested limits self.now.levels).members
            cursor.old result cursor.new }
    {
        (self.members)(self.alloc, cursor, self.levels)
    }

    #[tactic(auto, unfolding(ec_grammar::specs::ReadDeclarations::members_option))]
    fn members_option(&self, cursor: &mut Cursor<'_>) -> Result<Option<List<Decl>>, Failure>
        requires { NestsMembers self.now.levels (M.pre self.now.members) (M.post self.now.members) }
        ensures { Reading decls_option (within self.now.levels spec.members_option)
            cursor.old result cursor.new }
    {
        if !cursor.sees(Kind::Mark(Punct::LeftBrace)) {
            return Ok(None);
        }
        let members = self.nested_members(cursor)?;
        Ok(Some(members))
    }

    /// A tag, with its members where they follow.
    fn tagged(&self, cursor: &mut Cursor<'_>) -> Result<Base, Failure>
        requires { NestsMembers self.now.levels (M.pre self.now.members) (M.post self.now.members) }
        ensures { Reading base_view (within self.now.levels spec.tag_or_members_by kind.Name)
            cursor.old result cursor.new }
    {
        let token = cursor.expect(Kind::Name)?;
        let tag = copy_name(self.alloc, &token.tok)?;
        let members = self.members_option(cursor)?;
        Ok(tag_base(self.alloc, tag, members)?)
    }

    #[tactic(auto, unfolding(ec_grammar::specs::ReadDeclarations::tag_or_members))]
    fn tag_or_members(&self, cursor: &mut Cursor<'_>) -> Result<Base, Failure>
        requires { NestsMembers self.now.levels (M.pre self.now.members) (M.post self.now.members) }
        ensures { Reading base_view (within self.now.levels spec.tag_or_members)
            cursor.old result cursor.new }
    {
        match cursor.peek() {
            Kind::Name => self.tagged(cursor),
            Kind::Mark(Punct::LeftBrace) => {
                let members = self.nested_members(cursor)?;
                Ok(nameless(self.alloc, members)?)
            }
            _ => Err(cursor.refuse()),
        }
    }

    /// The words of a type.
    fn words_base(&self, cursor: &mut Cursor<'_>) -> Result<Base, Failure>
        ensures { Reading base_view (within self.now.levels spec.base_by kind.TypeWord)
            cursor.old result cursor.new }
    {
        let token = cursor.expect(Kind::TypeWord)?;
        let first = copy_name(self.alloc, &token.tok)?;
        let found = list_of(self.alloc, first)?;
        let found = more_words(self.alloc, cursor, found)?;
        Ok(words(found))
    }

    fn varchar_base(&self, cursor: &mut Cursor<'_>) -> Result<Base, Failure>
        ensures { Reading base_view (within self.now.levels spec.base_by kind.Varchar)
            cursor.old result cursor.new }
    {
        cursor.expect(Kind::Varchar)?;
        constants(cursor)?;
        Ok(varchar())
    }

    fn struct_base(&self, cursor: &mut Cursor<'_>) -> Result<Base, Failure>
        requires { NestsMembers self.now.levels (M.pre self.now.members) (M.post self.now.members) }
        ensures { Reading base_view (within self.now.levels spec.base_by kind.Struct)
            cursor.old result cursor.new }
    {
        cursor.expect(Kind::Struct)?;
        let base = self.tag_or_members(cursor)?;
        let (base, ()) = beside(base, constants(cursor))?;
        Ok(base)
    }

    /// A type without its stars (ISO/IEC 9899:1999, 6.7.2).
    #[tactic(auto, unfolding(ec_grammar::specs::ReadDeclarations::base))]
    fn base(&self, cursor: &mut Cursor<'_>) -> Result<Base, Failure>
        requires { NestsMembers self.now.levels (M.pre self.now.members) (M.post self.now.members) }
        ensures { Reading base_view (within self.now.levels spec.base)
            cursor.old result cursor.new }
    {
        match cursor.peek() {
            Kind::TypeWord => self.words_base(cursor),
            Kind::Varchar => self.varchar_base(cursor),
            Kind::Struct => self.struct_base(cursor),
            _ => Err(cursor.refuse()),
        }
    }

    /// What a declaration begins with (ISO/IEC 9899:1999, 6.7).
    #[tactic(auto, unfolding(ec_grammar::specs::ReadDeclarations::specifiers))]
    pub fn specifiers(&self, cursor: &mut Cursor<'_>) -> Result<Base, Failure>
        requires { NestsMembers self.now.levels (M.pre self.now.members) (M.post self.now.members) }
        ensures { Reading base_view (within self.now.levels spec.specifiers)
            cursor.old result cursor.new }
    {
        constants(cursor)?;
        self.base(cursor)
    }

    /// A type, as its base and its stars (ISO/IEC 9899:1999, 6.7.6).
    #[tactic(auto, unfolding(ec_grammar::specs::ReadDeclarations::type_name))]
    fn type_name(&self, cursor: &mut Cursor<'_>) -> Result<(Base, u32), Failure>
        requires { NestsMembers self.now.levels (M.pre self.now.members) (M.post self.now.members) }
        ensures { Reading type_view (within self.now.levels spec.type_name)
            cursor.old result cursor.new }
    {
        let base = self.specifiers(cursor)?;
        beside(base, stars(cursor))
    }

    /// A type in parentheses. Its stars are counted by themselves.
    #[tactic(auto, unfolding(ec_grammar::specs::ReadDeclarations::type_in_parentheses, ec_grammar::specs::Input::own))]
    pub fn type_in_parentheses(&self, cursor: &mut Cursor<'_>) -> Result<(Base, u32), Failure>
        requires { NestsMembers self.now.levels (M.pre self.now.members) (M.post self.now.members) }
        ensures { Reading type_view (within self.now.levels spec.type_in_parentheses)
            cursor.old result cursor.new }
    {
        cursor.expect(Kind::Mark(Punct::LeftParen))?;
        let outside = cursor.begin_declarator();
        let found = self.type_name(cursor)?;
        cursor.end_declarator(outside);
        let (found, _mark) = beside(found, cursor.expect(Kind::Mark(Punct::RightParen)))?;
        Ok(found)
    }
}
