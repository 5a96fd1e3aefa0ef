//! The readers of statements are the plain reading of their forms, as the contract of a function that does nothing.

ghost use Rattle.std.specs.Prelude.{◌≡◌};
ghost use Rattle.ec_embedded.specs.Connections as connection;
ghost use Rattle.ec_embedded.specs.Descriptors as descriptor;
ghost use Rattle.ec_embedded.specs.Directives as directive;
ghost use Rattle.ec_embedded.specs.Dynamic as dynamic;
ghost use Rattle.ec_embedded.specs.Statements.{at_form, at_of};
ghost use Rattle.ec_references.specs.Laws.{IsReader};
ghost use Rattle.ec_statement_readers.specs.Readers as r;

/// What is made of the trees of a form is what its reader reads, from any tokens.
#[tactic(none)]
pub fn readers_are_exact()
    ensures connect { IsReader connection.connect_form connection.connect_of r.connecting }
    ensures set_connection { IsReader connection.set_connection_form connection.set_connection_of
        r.setting_connection }
    ensures disconnect { IsReader connection.disconnect_form connection.disconnect_of
        r.disconnecting }
    ensures autocommit { IsReader connection.autocommit_form connection.autocommit_of
        r.setting_autocommit }
    ensures at { IsReader at_form at_of r.at_name }
    ensures prepare { IsReader dynamic.prepare_form dynamic.prepare_of r.preparing }
    ensures execute { IsReader dynamic.execute_form dynamic.execute_of r.executing }
    ensures deallocate { IsReader dynamic.deallocate_form dynamic.deallocate_of r.deallocating }
    ensures deallocate_at { IsReader dynamic.deallocate_at_form dynamic.deallocate_at_of
        r.deallocating_at }
    ensures open_cursor { IsReader dynamic.open_form dynamic.open_of r.opening }
    ensures allocate { IsReader descriptor.allocate_form descriptor.allocate_of r.allocating }
    ensures get { IsReader descriptor.get_form descriptor.get_of r.getting }
    ensures set { IsReader descriptor.set_form descriptor.set_of r.setting_area }
    ensures whenever { IsReader directive.whenever_form directive.whenever_of r.setting_handler }
    ensures include { IsReader directive.include_form directive.include_of r.including }
    ensures cursor { IsReader directive.cursor_form directive.cursor_name r.cursor_head }
{}
