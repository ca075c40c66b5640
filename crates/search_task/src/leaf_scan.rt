//! Scanning a leaf: a member is passed over by its means, or else by the codes of its row, or else measured; and a whole leaf by the box
//! of its means. Of an index without these, a leaf is passed over by its word, and a member by its full word, or else measured. A row that
//! is passed over is not read.
ghost use Rattle.std.specs.Prelude.{All, ◌≡◌, ◌+◌, ◌*◌, ◌<◌, ◌≤◌, false, length, take, drop, slice_index};
ghost use Rattle.series_core.specs.Distance.{squared_distance};
ghost use Rattle.subtree_build.specs.Means.{all_means, codes_of_member, means_of};
ghost use Rattle.subtree_build.specs.Members.{numbers_of, series_at};
ghost use Rattle.search_task.specs.LeafBounds.{IsBelowLeaf, IsBelowLeaves};
ghost use Rattle.search_task.specs.Questions.{IsMemberOf, ground_of, leaf_bound, leaf_series, view_in};
ghost use Rattle.search_task.specs.Scanning.{AreCoded, AreScanned, IsScannedOne, MayAdd};

use crate::scan::most_to_add;
use crate::search::Search;
use crate::task::Task;
use isax_word::Member;
use mean_bound::Means;
use row_codes::{CodeBlock, CodeLimit};
use series_core::{KBest, Rows};

impl<'a, R: Rows> Search<'a, R> {
    /// Scans a leaf with this limit into a list, which then has the k smallest of its pairs and of the members' pairs with a
    /// distance not above the limit.
    pub fn scan_leaf(&self, leaf: u32, limit: u64, list: &mut KBest)
        requires leaf { leaf < length self.now.index.leaves }
        requires k { list.old.k ≡ self.now.question.k }
        ensures k { list.new.k ≡ self.now.question.k }
        ensures pairs { AreScanned self.now.question limit (leaf_series self.now.index leaf) list.old.pairs list.new.pairs }
    {
        let index = self.index;
        let members = index.leaf_members(leaf);
        // once a leaf, so that no member of an index with tables waits for the test
        if index.has_tables() {
            let means = index.leaf_means(leaf);
            let codes = index.leaf_codes(leaf);
            self.task.scan_members(members, means, codes, limit, list)
        } else {
            self.task.scan_by_words(members, limit, list)
        }
    }

    /// The same for each member of a leaf, but where the box of their means is too far, nothing of the leaf is read.
    pub fn scan_boxed(&self, leaf: u32, limit: u64, list: &mut KBest)
        requires leaf { leaf < length self.now.index.leaves }
        requires k { list.old.k ≡ self.now.question.k }
        ensures k { list.new.k ≡ self.now.question.k }
        ensures pairs { AreScanned self.now.question limit (leaf_series self.now.index leaf) list.old.pairs list.new.pairs }
    {
        // for the fact that the index can be searched
        let _k = self.k();
        if self.leaf_bound(leaf) > most_to_add(limit, list) {
            return;
        }
        self.scan_leaf(leaf, limit, list);
    }

    /// Whether the codes of the member at a place of a leaf, if there are any, do not lie above the limit. Where they do, so does its
    /// distance.
    pub fn codes_may_be_within(&self, leaf: u32, place: usize, limit: &CodeLimit) -> bool
        requires leaf { leaf < length self.now.index.leaves }
        requires place { place < length (leaf_series self.now.index leaf) }
        ensures { result ≡ false
            → limit.now < (ground_of self.now).distance (slice_index (leaf_series self.now.index leaf) place) }
    {
        if self.index.has_codes() {
            let members = self.index.leaf_members(leaf);
            let codes = self.index.leaf_codes(leaf);
            self.task
                .codes_at_may_be_within(members, codes, place, limit)
        } else {
            true
        }
    }

    /// A bound that is above the distance of no member of the leaf: that of the box of their means, or without means that of its word.
    pub fn leaf_bound(&self, leaf: u32) -> u64
        requires leaf { leaf < length self.now.index.leaves }
        ensures { IsBelowLeaf (ground_of self.now) leaf result }
    {
        match self.index.leaf_box(leaf) {
            Some(own) => self.task.means().bound_box(own),
            None => self.word_bound(leaf),
        }
    }

    /// The lower bound of a leaf's word, which an outcome tells.
    pub fn word_bound(&self, leaf: u32) -> u64
        requires leaf { leaf < length self.now.index.leaves }
        ensures { result ≡ leaf_bound (view_in self.now.question) self.now.index leaf }
    {
        self.task.view().bound_word(self.index.leaf_word(leaf))
    }

    /// What the box of its means tells of one leaf, of all sixteen leaves of a group: 0 without means.
    pub fn group_bound(&self, group: u32) -> u64
        requires group { group * 16 < length self.now.index.leaves }
        ensures { IsBelowLeaves (ground_of self.now) (group * 16) (group * 16 + 16) result }
    {
        match self.index.group_box(group) {
            Some(shared) => self.task.means().bound_box(shared),
            None => 0,
        }
    }

    /// And so of all 256 leaves of a wide group.
    pub fn wide_group_bound(&self, group: u32) -> u64
        requires group { group * 256 < length self.now.index.leaves }
        ensures { IsBelowLeaves (ground_of self.now) (group * 256) (group * 256 + 256) result }
    {
        match self.index.wide_group_box(group) {
            Some(shared) => self.task.means().bound_box(shared),
            None => 0,
        }
    }
}

impl<'a, R: Rows> Task<'a, R> {
    // Scans members with this limit into a list: one is passed over by its means, or else by the codes of its row, or else measured.
    fn scan_members(
        &self,
        members: &[Member],
        means: &[Means],
        codes: &[CodeBlock],
        limit: u64,
        list: &mut KBest,
    )
        requires means { means.now ≡ all_means self.now.collection self.now.layout members.now }
        requires coded { AreCoded self.now members.now codes.now }
        requires k { list.old.k ≡ self.now.k }
        ensures k { list.new.k ≡ self.now.k }
        ensures pairs { AreScanned self.now limit (numbers_of members.now) list.old.pairs list.new.pairs }
    {
        let blocks = self.code_blocks();
        let mut most = CodeLimit::new(most_to_add(limit, list));
        for i in 0..members.len() {
            let member = &members[i];
            let own = codes_at_place(codes, blocks, i);
            let near = self.may_be_within(member, &means[i], own, &most);
            most = self.measure_near(near, member, limit, most, list);
        }
    }

    // Scans members with this limit into a list: one is passed over by its full word, or else measured.
    fn scan_by_words(&self, members: &[Member], limit: u64, list: &mut KBest)
        requires members { All (IsMemberOf self.now) members.now }
        requires k { list.old.k ≡ self.now.k }
        ensures k { list.new.k ≡ self.now.k }
        ensures pairs { AreScanned self.now limit (numbers_of members.now) list.old.pairs list.new.pairs }
    {
        let mut most = most_to_add(limit, list);
        for position in 0..members.len() {
            let member = &members[position];
            most = self.measure_by_word(member, limit, most, list);
        }
    }

    // Adds the member's pair where neither the bound of its full word nor its distance is above `most`, and tells what is then the most.
    #[inline(always)]
    fn measure_by_word(&self, member: &Member, limit: u64, most: u64, list: &mut KBest) -> u64
        requires member { IsMemberOf self.now member.now }
        requires list { MayAdd self.now limit list.old most }
        ensures list { MayAdd self.now limit list.new result }
        ensures pairs { IsScannedOne self.now limit member.now.number list.old.pairs list.new.pairs }
    {
        if self.view().bound_full(&member.full) <= most {
            self.measure(member.number, limit, most, list)
        } else {
            most
        }
    }

    /// Measures each of the members with this limit into a list.
    pub fn measure_members(&self, members: &[Member], limit: u64, list: &mut KBest)
        requires members { All (IsMemberOf self.now) members.now }
        requires k { list.old.k ≡ self.now.k }
        ensures k { list.new.k ≡ self.now.k }
        ensures pairs { AreScanned self.now limit (numbers_of members.now) list.old.pairs list.new.pairs }
    {
        let mut most = most_to_add(limit, list);
        for place in 0..members.len() {
            let member = &members[place];
            most = self.measure(member.number, limit, most, list);
        }
    }

    // Whether the codes of the member at a place do not lie above the limit. Where they do, so does its distance.
    fn codes_at_may_be_within(
        &self,
        members: &[Member],
        codes: &[CodeBlock],
        place: usize,
        limit: &CodeLimit,
    ) -> bool
        requires coded { AreCoded self.now members.now codes.now }
        requires place { place < length members.now }
        ensures { let s = slice_index (numbers_of members.now) place in result ≡ false
            → limit.now < squared_distance (series_at self.now.collection s) self.now.query }
    {
        let blocks = self.code_blocks();
        let member = &members[place];
        let own = codes_at_place(codes, blocks, place);
        self.codes_may_be_within(member, own, limit)
    }

    /// Adds the member's pair where it is near and its distance is at most `most`, and tells what is then the most. As a limit of codes it
    /// is made anew only where it changes.
    #[inline(always)]
    pub fn measure_near(
        &self,
        near: bool,
        member: &Member,
        limit: u64,
        most: CodeLimit,
        list: &mut KBest,
    ) -> CodeLimit
        requires member { IsMemberOf self.now member.now }
        requires far { near ≡ false
            → most < squared_distance (series_at self.now.collection member.now.number) self.now.query }
        requires list { MayAdd self.now limit list.old most }
        ensures list { MayAdd self.now limit list.new result }
        ensures pairs { IsScannedOne self.now limit member.now.number list.old.pairs list.new.pairs }
    {
        // for the fact that the task is a question
        let _k = self.k();
        if !near {
            return most;
        }
        let closer = self.measure(member.number, limit, most.limit(), list);
        limit_of_codes(most, closer)
    }

    // Whether neither the member's means nor its codes lie above the limit. Where they do, so does its distance.
    fn may_be_within(
        &self,
        member: &Member,
        means: &Means,
        codes: &[CodeBlock],
        limit: &CodeLimit,
    ) -> bool
        requires member { IsMemberOf self.now member.now }
        requires means { means.now ≡ means_of self.now.collection self.now.layout member.now }
        requires codes { codes.now ≡ codes_of_member self.now.collection member.now }
        ensures { result ≡ false
            → limit.now < squared_distance (series_at self.now.collection member.now.number) self.now.query }
    {
        self.means().bound(means) <= limit.limit() && self.codes_may_be_within(member, codes, limit)
    }

    /// Whether the member's codes do not lie above the limit. Where they do, so does its distance.
    #[inline(always)]
    pub fn codes_may_be_within(
        &self,
        member: &Member,
        codes: &[CodeBlock],
        limit: &CodeLimit,
    ) -> bool
        requires member { IsMemberOf self.now member.now }
        requires codes { codes.now ≡ codes_of_member self.now.collection member.now }
        ensures { result ≡ false
            → limit.now < squared_distance (series_at self.now.collection member.now.number) self.now.query }
    {
        let _ = member;
        self.codes().is_within(codes, limit)
    }
}

// A limit as bounds by codes are held against it, where it was this one before.
fn limit_of_codes(before: CodeLimit, limit: u64) -> CodeLimit
    ensures { result ≡ limit }
{
    if limit == before.limit() {
        before
    } else {
        CodeLimit::new(limit)
    }
}

/// The codes of member `i` among those of all, with so many blocks a member.
pub fn codes_at_place(codes: &[CodeBlock], blocks: usize, i: usize) -> &[CodeBlock]
    requires { i * blocks + blocks ≤ length codes.now }
    ensures { result.now ≡ take blocks (drop (i * blocks) codes.now) }
{
    let first = i * blocks;
    &codes[first..first + blocks]
}
