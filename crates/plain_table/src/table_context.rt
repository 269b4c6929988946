// The context of a fact's expressions over a table of results.
ghost use Rattle.plain_table.specs.TableContext.{context_on};

use crate::table::Table;
use dict_source::DictSource;
use source_eval::EvalContext;
use three_state::Res;

/// The results of a table so far.
#[derive(Clone, Copy)]
pub struct TableContext<'a> {
    pub source: &'a DictSource,
    pub fact: u32,
    pub table: &'a Table,
}

impl EvalContext for TableContext<'_> {
    ghost meaning = { context_on };

    fn source(&self) -> &DictSource {
        self.source
    }

    fn fact(&self) -> u32 {
        self.fact
    }

    fn result_at(&self, fact: Option<u32>, member: u32) -> &Res {
        self.table.result_at(fact, member)
    }
}
