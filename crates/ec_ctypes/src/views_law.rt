//! What holds of every tree and of every list of trees, as the contracts of functions that do nothing.
ghost use Rattle.std.specs.Prelude.{◌≡◌, Bool, List, Option};
ghost use Rattle.ec_ctypes.specs.Order.{Holds, HoldsBranches, HoldsParts, HoldsIndicator, HoldsArguments};
ghost use Rattle.ec_ctypes.specs.declared.tree.decl.Base.TheOpen.{Expr-F};
ghost use Rattle.ec_ctypes.specs.declared.tree.expr.BinOp.{BinOp};
ghost use Rattle.ec_ctypes.specs.declared.tree.stmt.ForParts.{ForParts};
ghost use Rattle.ec_ctypes.specs.trees.Exprs as trees;
ghost use Rattle.ec_ctypes.specs.trees.Exprs.{ExprData, bump};
ghost use Rattle.ec_ctypes.specs.trees.Stmts.{StmtData};
ghost use Rattle.ec_ctypes.specs.views.Exprs.{expr_step, expr_view, base_view, init_view, declarator_view, decl_view, expr_option_view, exprs_view, dims_view, inits_view, init_option_view, declarators_view, decls_view};
ghost use Rattle.ec_ctypes.specs.declared.types.ty.Ty.{Ty};
ghost use Rattle.ec_ctypes.specs.declared.types.ty.StructDef.{StructDef};
ghost use Rattle.ec_ctypes.specs.declared.text.token.Tok.{Tok};
ghost use Rattle.ec_ctypes.specs.declared.text.token.Token.{Token};
ghost use Rattle.ec_ctypes.specs.declared.tree.expr.Expr.{Expr};
ghost use Rattle.ec_ctypes.specs.declared.tree.decl.Base.{Base};
ghost use Rattle.ec_ctypes.specs.declared.tree.decl.Init.{Init};
ghost use Rattle.ec_ctypes.specs.declared.tree.decl.Declarator.{Declarator};
ghost use Rattle.ec_ctypes.specs.declared.tree.decl.Decl.{Decl};
ghost use Rattle.ec_ctypes.specs.declared.tree.stmt.StmtKind.{StmtKind};
ghost use Rattle.ec_ctypes.specs.declared.tree.stmt.Stmt.{Stmt};
ghost use Rattle.ec_ctypes.specs.declared.tree.unit.Param.{Param};
ghost use Rattle.ec_ctypes.specs.declared.tree.unit.Func.{Func};
ghost use Rattle.ec_ctypes.specs.declared.tree.unit.Top.{Top};
ghost use Rattle.ec_ctypes.specs.declared.tree.unit.Unit.{Unit as Program};
ghost use Rattle.ec_ctypes.specs.declared.embedded.host.Host.{Host};
ghost use Rattle.ec_ctypes.specs.declared.embedded.host.TextArg.{TextArg};
ghost use Rattle.ec_ctypes.specs.declared.embedded.host.Input.{Input};
ghost use Rattle.ec_ctypes.specs.declared.embedded.host.Ins.{Ins};
ghost use Rattle.ec_ctypes.specs.declared.embedded.host.Outs.{Outs};
ghost use Rattle.ec_ctypes.specs.declared.embedded.host.Part.{Part};
ghost use Rattle.ec_ctypes.specs.declared.embedded.emb.Action.{Action};
ghost use Rattle.ec_ctypes.specs.declared.embedded.emb.EmbKind.{EmbKind};
ghost use Rattle.ec_ctypes.specs.declared.embedded.emb.Emb.{Emb};
ghost use Rattle.ec_ctypes.specs.declared.checked.typed.HandlerTable.{HandlerTable};
ghost use Rattle.ec_ctypes.specs.declared.checked.typed.Typed.{Typed};
ghost use Rattle.ec_ctypes.specs.declared.checked.bound.Place.{Place};
ghost use Rattle.ec_ctypes.specs.declared.checked.bound.Bound.{Bound};
ghost use Rattle.ec_ctypes.specs.views.Types.{ty_view, struct_view, structs_view};
ghost use Rattle.ec_ctypes.specs.views.Tokens.{tok_view, token_view, tokens_view};
ghost use Rattle.ec_ctypes.specs.views.Stmts.{kind_view, stmt_view, stmts_view, stmt_option_view};
ghost use Rattle.ec_ctypes.specs.views.Units.{param_view, func_view, top_view, unit_view};
ghost use Rattle.ec_ctypes.specs.views.Embedded.{host_view, text_arg_view, input_view, ins_view, outs_view, part_view, action_view, emb_kind_view, emb_view};
ghost use Rattle.ec_ctypes.specs.views.Checked.{handlers_view, typed_view, place_view, bound_view};

/// Where two trees have one view, they are one tree.
pub fn views_lose_nothing()
    ensures types { (a b : Ty) → ty_view a ≡ ty_view b → a ≡ b }
    ensures structs { (a b : StructDef) → struct_view a ≡ struct_view b → a ≡ b }
    ensures token_kinds { (a b : Tok) → tok_view a ≡ tok_view b → a ≡ b }
    ensures tokens { (a b : Token) → token_view a ≡ token_view b → a ≡ b }
    ensures expressions { (a b : Expr) → expr_view a ≡ expr_view b → a ≡ b }
    ensures bases { (a b : Base) → base_view a ≡ base_view b → a ≡ b }
    ensures initializers { (a b : Init) → init_view a ≡ init_view b → a ≡ b }
    ensures declarators { (a b : Declarator) → declarator_view a ≡ declarator_view b → a ≡ b }
    ensures declarations { (a b : Decl) → decl_view a ≡ decl_view b → a ≡ b }
    ensures statement_kinds { (a b : StmtKind) → kind_view a ≡ kind_view b → a ≡ b }
    ensures statements { (a b : Stmt) → stmt_view a ≡ stmt_view b → a ≡ b }
    ensures hosts { (a b : Host) → host_view a ≡ host_view b → a ≡ b }
    ensures text_arguments { (a b : TextArg) → text_arg_view a ≡ text_arg_view b → a ≡ b }
    ensures inputs { (a b : Input) → input_view a ≡ input_view b → a ≡ b }
    ensures input_lists { (a b : Ins) → ins_view a ≡ ins_view b → a ≡ b }
    ensures outputs { (a b : Outs) → outs_view a ≡ outs_view b → a ≡ b }
    ensures parts { (a b : Part) → part_view a ≡ part_view b → a ≡ b }
    ensures actions { (a b : Action) → action_view a ≡ action_view b → a ≡ b }
    ensures embedded_kinds { (a b : EmbKind) → emb_kind_view a ≡ emb_kind_view b → a ≡ b }
    ensures embedded { (a b : Emb) → emb_view a ≡ emb_view b → a ≡ b }
    ensures parameters { (a b : Param) → param_view a ≡ param_view b → a ≡ b }
    ensures functions { (a b : Func) → func_view a ≡ func_view b → a ≡ b }
    ensures tops { (a b : Top) → top_view a ≡ top_view b → a ≡ b }
    ensures programs { (a b : Program) → unit_view a ≡ unit_view b → a ≡ b }
    ensures handler_tables { (a b : HandlerTable) → handlers_view a ≡ handlers_view b → a ≡ b }
    ensures typed_programs { (a b : Typed) → typed_view a ≡ typed_view b → a ≡ b }
    ensures places { (a b : Place) → place_view a ≡ place_view b → a ≡ b }
    ensures bounds { (a b : Bound) → bound_view a ≡ bound_view b → a ≡ b }
{}

/// Where two lists of trees have one view, they are one list. So it is with a tree that may be missing.
pub fn list_views_lose_nothing()
    ensures structs { (a b : List StructDef) → structs_view a ≡ structs_view b → a ≡ b }
    ensures tokens { (a b : List Token) → tokens_view a ≡ tokens_view b → a ≡ b }
    ensures expressions { (a b : List Expr) → exprs_view a ≡ exprs_view b → a ≡ b }
    ensures expression { (a b : Option Expr) → expr_option_view a ≡ expr_option_view b → a ≡ b }
    ensures array_lengths { (a b : List (Option Expr)) → dims_view a ≡ dims_view b → a ≡ b }
    ensures initializers { (a b : List Init) → inits_view a ≡ inits_view b → a ≡ b }
    ensures initializer { (a b : Option Init) → init_option_view a ≡ init_option_view b → a ≡ b }
    ensures declared { (a b : List Declarator) → declarators_view a ≡ declarators_view b → a ≡ b }
    ensures declarations { (a b : List Decl) → decls_view a ≡ decls_view b → a ≡ b }
    ensures statements { (a b : List Stmt) → stmts_view a ≡ stmts_view b → a ≡ b }
    ensures statement { (a b : Option Stmt) → stmt_option_view a ≡ stmt_option_view b → a ≡ b }
{}

/// Children of one type stand in a tree's data in the order in which they stand in the tree.
pub fn views_keep_order()
    ensures binary { (op : BinOp) → Holds (λ a b. Expr-F.Binary op a b) (trees.binary op) }
    ensures assign { (op : Option BinOp) → Holds (λ a b. Expr-F.Assign op a b) (trees.assign op) }
    ensures index { Holds (λ a b. Expr-F.Index a b) trees.index }
    ensures bump { (b u : Bool) (a : ExprData) → expr_step (Expr-F.Bump b u a) ≡ bump b u a }
    ensures branches { (e : Expr) (s t : StmtData) → HoldsBranches e s t }
    ensures for_loop { (parts : ForParts) (s : StmtData) → HoldsParts parts s }
    ensures argument { (e i : Expr) → HoldsIndicator e i }
    ensures connect { (t : TextArg) (n u p : Option TextArg) → HoldsArguments t n u p }
{}
