//! Laws of the EXEC's grammar.
ghost use Rattle.std.specs.Prelude.{◌≡◌, ◌<◌, None, length};
ghost use Rattle.cm_blocks.specs.Fault.{grammar_fault};
ghost use Rattle.ex_grammar.specs.declared.code.TheConstants.{AFTER, APPEND, BEFORE, BUILD, CONNECT, COPIES, COPY, DEFINE, DELETE, DELETED, DIRECTORY, DIRECTORY_TOPIC, EXPUNGE, FILE, FORMS, GENERATION_RETENTION_COUNT, GENERATIONS, INFORMATION, JOBNAME, LOGICAL_NAMES, LOGOUT, NO_KEYWORD, NOTE, OUTPUT_REQUESTS, PRINT, READ, REMARK, RENAME, SET, SINCE, TAKE, TYPE, UNDELETE, VERSION};
ghost use Rattle.ex_grammar.specs.declared.node.TheConstants.{BUILD_SUBCOMMANDS, COMMANDS, DIRECTORY_SUBCOMMANDS, LINE_END, SWITCHES};
ghost use Rattle.ex_grammar.specs.declared.retention.TheConstants.{MOST_KEPT};
ghost use Rattle.ex_grammar.specs.declared.tables.TheConstants.{BUILD_TABLE, COMMAND_TABLE, DIRECTORY_TABLE, FILE_TABLE, SET_TABLE, SWITCH_TABLE, TOPIC_TABLE, TYPE_POSITION};
ghost use Rattle.ex_grammar.specs.Graph.{exec_graph};

/// The grammar has no fault.
#[tactic(auto, using(crate::proofs::Faultless::graph_has_no_fault))]
pub fn the_grammar_has_no_fault()
    ensures { grammar_fault exec_graph ≡ None }
{}

/// The nodes where a command, and a subcommand of DIRECTORY and of BUILD, begin are of the 57 nodes.
#[tactic(auto, using(crate::proofs::Faultless::graph_nodes))]
pub fn a_command_begins_at_a_node()
    ensures nodes { length exec_graph.nodes ≡ 57 }
    ensures begins { COMMANDS < length exec_graph.nodes }
    ensures directory { DIRECTORY_SUBCOMMANDS < length exec_graph.nodes }
    ensures build { BUILD_SUBCOMMANDS < length exec_graph.nodes }
{}

/// The codes of the commands, and of what is no keyword.
pub fn these_are_the_codes_of_commands()
    ensures append { APPEND ≡ 1 }
    ensures build { BUILD ≡ 2 }
    ensures connect { CONNECT ≡ 3 }
    ensures copy { COPY ≡ 4 }
    ensures define { DEFINE ≡ 5 }
    ensures delete { DELETE ≡ 6 }
    ensures directory { DIRECTORY ≡ 7 }
    ensures expunge { EXPUNGE ≡ 8 }
    ensures information { INFORMATION ≡ 9 }
    ensures logout { LOGOUT ≡ 10 }
    ensures print { PRINT ≡ 11 }
    ensures remark { REMARK ≡ 12 }
    ensures rename { RENAME ≡ 13 }
    ensures take { TAKE ≡ 14 }
    ensures type_out { TYPE ≡ 15 }
    ensures undelete { UNDELETE ≡ 16 }
    ensures set { SET ≡ 17 }
    ensures no_keyword { NO_KEYWORD ≡ 0 }
{}

/// The codes of what INFORMATION tells about, of the subcommands of DIRECTORY and BUILD, of the switches of PRINT, and
/// of what SET sets.
pub fn these_are_the_codes_of_parts()
    ensures directory_topic { DIRECTORY_TOPIC ≡ 1 }
    ensures logical_names { LOGICAL_NAMES ≡ 2 }
    ensures output_requests { OUTPUT_REQUESTS ≡ 3 }
    ensures version { VERSION ≡ 4 }
    ensures before { BEFORE ≡ 1 }
    ensures deleted { DELETED ≡ 2 }
    ensures since { SINCE ≡ 3 }
    ensures read { READ ≡ 4 }
    ensures generations { GENERATIONS ≡ 1 }
    ensures after { AFTER ≡ 1 }
    ensures copies { COPIES ≡ 2 }
    ensures forms { FORMS ≡ 3 }
    ensures job_name { JOBNAME ≡ 4 }
    ensures note { NOTE ≡ 5 }
    ensures file { FILE ≡ 1 }
    ensures count { GENERATION_RETENTION_COUNT ≡ 1 }
{}

/// The numbers of the grammar: the nodes and tables that have a name, where TYPE is in its table, and how many
/// generations a directory keeps at most.
pub fn these_are_the_numbers()
    ensures commands { COMMANDS ≡ 0 }
    ensures directory_subcommands { DIRECTORY_SUBCOMMANDS ≡ 46 }
    ensures build_subcommands { BUILD_SUBCOMMANDS ≡ 48 }
    ensures line_end { LINE_END ≡ 5 }
    ensures switches { SWITCHES ≡ 39 }
    ensures command_table { COMMAND_TABLE ≡ 0 }
    ensures topic_table { TOPIC_TABLE ≡ 1 }
    ensures directory_table { DIRECTORY_TABLE ≡ 2 }
    ensures build_table { BUILD_TABLE ≡ 3 }
    ensures switch_table { SWITCH_TABLE ≡ 4 }
    ensures set_table { SET_TABLE ≡ 5 }
    ensures file_table { FILE_TABLE ≡ 6 }
    ensures type_position { TYPE_POSITION ≡ 19 }
    ensures most_kept { MOST_KEPT ≡ 63 }
{}
