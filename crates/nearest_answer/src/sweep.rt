//! The sweep: the answer by the codes of all members' rows, one after another as they lie in memory. No box and no means of a leaf are
//! looked at.
ghost use Rattle.std.specs.Prelude.{◌≡◌, ◌≤◌, []};
ghost use Rattle.series_core.specs.Answer.{answer};
ghost use Rattle.subtree_build.specs.Members.{numbers_of};
ghost use Rattle.search_task.specs.Questions.{last_of};
ghost use Rattle.search_task.specs.Scanning.{AreCoded, AreScanned};

use isax_word::Member;
use row_codes::{CodeBlock, CodeLimit};
use search_task::{Search, Task, codes_at_place, most_to_add};
use series_core::{KBest, Rows};

/// The list of the answer, by the codes of all members' rows, in an empty list's room. Without codes all rows are measured.
pub(crate) fn answer_by_codes<R: Rows>(search: &Search<'_, R>, limit: u64, mut list: KBest) -> KBest
    requires limit { last_of search.now.question ≤ limit }
    requires empty { list ≡ record { k = search.now.question.k; pairs = [] } }
    ensures { let a = search.now.question in result.pairs ≡ answer a.collection a.query a.k }
{
    let index = search.index();
    let task = search.task();
    let members = index.members();
    let Some(codes) = index.codes() else {
        task.measure_members(members, limit, &mut list);
        return list;
    };
    sweep(task, members, codes, limit, &mut list);
    list
}

/// Scans members with this limit into a list: one is passed over by the codes of its row, or else measured.
pub(crate) fn sweep<R: Rows>(
    task: &Task<'_, R>,
    members: &[Member],
    codes: &[CodeBlock],
    limit: u64,
    list: &mut KBest,
)
    requires coded { AreCoded task.now members.now codes.now }
    requires k { list.old.k ≡ task.now.k }
    ensures k { list.new.k ≡ task.now.k }
    ensures pairs { AreScanned task.now limit (numbers_of members.now) list.old.pairs list.new.pairs }
{
    let blocks = task.code_blocks();
    let mut most = CodeLimit::new(most_to_add(limit, list));
    for i in 0..members.len() {
        let member = &members[i];
        let own = codes_at_place(codes, blocks, i);
        let near = task.codes_may_be_within(member, own, &most);
        most = task.measure_near(near, member, limit, most, list);
    }
}
