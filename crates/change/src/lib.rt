// A change staged: which blocks, with which content, in ascending order.
#![tactic(auto)]

ghost use Rattle.std.specs.Prelude.{◌≡◌, true, ℕ, List, [], ◌+◌, ◌*◌, ◌<◌, ◌≤◌, length, take, drop};
ghost use Rattle.spec.specs.Bytes.{same};
ghost use Rattle.spec.specs.Disk.{Disk, slice_of};
ghost use Rattle.spec.specs.Inode.{block_of_inode};
ghost use Rattle.spec.specs.Answers.{done_of};
ghost use Rattle.spec.specs.Transaction.{BlockStore, view, ascending, put, stage, stage_each, staged_of, with_staging};
ghost use Rattle.block.specs.Stores.{stored_in};
ghost use Rattle.transaction.specs.Places.{spot};
ghost use Rattle.transaction.specs.LentSessions.{session_lent, numbers_lent, state_lent, Held};
ghost use Rattle.transaction.specs.Images.{session_of_image, state_of_image, work_of_image, Same};
ghost use Rattle.transaction.specs.Volumes.{working};
ghost use Rattle.inode.specs.Records.{bytes_in};
ghost use Rattle.content.specs.Content.{with_record, data_content};
ghost use Rattle.spec.specs.Calls.{settle, outcome, staging};
ghost use Rattle.agenda.specs.declared.Content.{Content};
ghost use Rattle.agenda.specs.declared.Content.TheVariants.{Record};
ghost use Rattle.agenda.specs.Agenda.{Lists, Told, stores_by};
ghost use Rattle.change.specs.Change.{Change, change_stores};
ghost use Rattle.change.specs.Window.{Outside};
ghost use Rattle.change.specs.Contents.{Stages, Ready, content_of, content_by, with_changed, data_from, nodes_from, change_of, IsBlock, IsNode};

use agenda::{Agenda, Content, Planned};
use block::{copy, copy_of, place_in_block};
use content::{RecordPrefix, Rewrite, lay_record, node_content};
use inode::{InodeNumber, inode_block, table_block};
use runs::{DataBlock, block_count};
use spec::{DiskBlock, Extent, FileBlock, Limits, Refusal};
use transaction::{Image, Staging, WorkingCopy};

mod plan;

pub use plan::Plan;

// A block's content, made in it.
fn edit_block(block: &mut [u8; Limits::BLOCK_SIZE], plan: &Plan, content: Content)
    ensures { block.new ≡ content_of plan.now.number.n (change_of plan.now) content block.old }
{
    match content {
        Content::Bitmap => {
            let table = plan.table;
            copy(table, block);
        }
        Content::Record => lay_record(block, plan.number.n, RecordPrefix { bytes: &plan.inode }),
        Content::Node(j) => *block = node_content(plan.draft.extents, j),
        Content::Data(p) => plan.data.lay(block, p),
    }
}

// Whether these bytes stand at a place of a block, which may be cut short.
fn same_at(block: &[u8], at: usize, bytes: &[u8]) -> bool
    requires { at + length bytes.now ≤ 512 }
    ensures { result ≡ same (bytes_in block.now at (length bytes.now)) bytes.now }
{
    let end = at + bytes.len();
    if end <= block.len() {
        return &block[at..end] == bytes;
    }
    let padded = copy_of(block);
    &padded[at..end] == bytes
}

// Block b on the agenda, where this content is another than that of the working copy.
fn add_block(
    agenda: &mut Agenda,
    copy: &WorkingCopy,
    b: DiskBlock,
    content: Content,
    new: &[u8; Limits::BLOCK_SIZE],
) -> Result<(), Refusal>
    ensures { (f : ℕ → Content → List ℕ) (ws : List BlockStore) → f b.0 content ≡ new.now → Lists f agenda.old (ascending ws)
        → Told result f agenda.new (ascending (with_changed (working copy.now) (f b.0 content) b.0 ws)) }
{
    if same_at(copy.block(b), 0, new) {
        return Ok(());
    }
    agenda.insert(b, content)
}

// The block of record i on the agenda, where the record's bytes change.
fn add_record(
    agenda: &mut Agenda,
    copy: &WorkingCopy,
    i: InodeNumber,
    new: &[u8; Limits::INODE_SIZE],
) -> Result<(), Refusal>
    ensures { (f : ℕ → Content → List ℕ) (ws : List BlockStore)
        → f (block_of_inode i.n) Record ≡ with_record i.n new.now (working copy.now (block_of_inode i.n)) → Lists f agenda.old (ascending ws)
        → Told result f agenda.new (ascending (with_changed (working copy.now) (f (block_of_inode i.n) Record) (block_of_inode i.n) ws)) }
{
    let table = inode_block(copy, i);
    if same_at(table, place_in_block(i.n), new) {
        return Ok(());
    }
    agenda.insert(table_block(i), Content::Record)
}

// Of the places of a file's blocks below `low`, and of those from `high` on that were held before, none is staged. No Range: of those from `high` on the new
// ones are staged.
#[derive(Clone, Copy)]
pub struct Window {
    pub low: FileBlock,
    pub high: FileBlock,
}

impl Window {
    // That of a change of the file's blocks.
    fn of(rewrite: &Rewrite) -> Window
        ensures { Outside rewrite.now.held rewrite.now.old rewrite.now.size rewrite.now.x.0 rewrite.now.bytes.now result }
    {
        let first = rewrite.first_data();
        let behind = (rewrite.x.0 + rewrite.bytes.len()).div_ceil(Limits::BLOCK_SIZE);
        match rewrite.last_kept() {
            Some(k) => Window {
                low: FileBlock(first.0.min(k.0)),
                high: FileBlock(behind.max(k.0 + 1)),
            },
            None => Window {
                low: first,
                high: FileBlock(behind),
            },
        }
    }
}

impl Plan<'_, '_> {
    // Data block p of the file, which is block b, on the agenda where it is staged.
    fn add_place(&self, agenda: &mut Agenda, p: DataBlock, b: DiskBlock) -> Result<(), Refusal>
        requires { IsBlock (change_of self.now) p.0 b.0 }
        ensures { (v : Disk) → Lists (content_by v self.now) agenda.old (ascending (data_from v self.now (p.0 + 1)))
            → Told result (content_by v self.now) agenda.new (ascending (data_from v self.now p.0)) }
    {
        if self.data.is_staged(p) {
            return agenda.insert(b, Content::Data(p));
        }
        Ok(())
    }

    // The places from one to another of the file, from the last to the first, of a run whose first block is `first` and data block `at` of the file.
    fn add_places(
        &self,
        agenda: &mut Agenda,
        first: DiskBlock,
        at: FileBlock,
        from: FileBlock,
        to: FileBlock,
    ) -> Result<(), Refusal>
        requires { (at.0 ≤ from.0) × (from.0 ≤ to.0) × (to.0 ≤ 8192) × (first.0 < 131072) × ((j : ℕ) → at.0 + j < to.0 → IsBlock (change_of self.now) (at.0 + j) (first.0 + j)) }
        ensures { (v : Disk) → Lists (content_by v self.now) agenda.old (ascending (data_from v self.now to.0))
            → Told result (content_by v self.now) agenda.new (ascending (data_from v self.now from.0)) }
    {
        for p in (from.0..to.0).rev() {
            let b = DiskBlock(first.0 + (p - at.0) as u32);
            self.add_place(agenda, DataBlock(p as u32), b)?;
        }
        Ok(())
    }

    // The blocks of an extent of the file; the first is data block `at` of the file. Outside of the window only new blocks are looked at.
    fn add_run(
        &self,
        agenda: &mut Agenda,
        w: Window,
        e: Extent,
        at: FileBlock,
    ) -> Result<(), Refusal>
        requires { (e.first < 131072) × (at.0 + e.count ≤ 8192) × ((j : ℕ) → j < e.count → IsBlock (change_of self.now) (at.0 + j) (e.first + j))
            × Outside self.now.data.held self.now.data.old self.now.data.size self.now.data.x.0 self.now.data.bytes.now w }
        ensures { (v : Disk) → Lists (content_by v self.now) agenda.old (ascending (data_from v self.now (at.0 + e.count)))
            → Told result (content_by v self.now) agenda.new (ascending (data_from v self.now at.0)) }
    {
        let first = DiskBlock(e.first);
        let end = at.0 + e.count as usize;
        let new = self.data.held.clamp(at.0, end);
        let high = w.high.0.clamp(at.0, new);
        let low = w.low.0.clamp(at.0, high);
        self.add_places(agenda, first, at, FileBlock(new), FileBlock(end))?;
        self.add_places(agenda, first, at, FileBlock(low), FileBlock(high))
    }

    // The data blocks of a change, from the last to the first.
    fn add_data(&self, agenda: &mut Agenda) -> Result<(), Refusal>
        ensures { (v : Disk) → Lists (content_by v self.now) agenda.old [] → Told result (content_by v self.now) agenda.new (ascending (data_from v self.now 0)) }
    {
        let w = Window::of(&self.data);
        let mut at = block_count(self.draft.extents) as usize;
        for e in self.draft.extents.iter().rev() {
            let end = at;
            at -= e.count as usize;
            if (w.low.0 < end) & ((at < w.high.0) | (self.data.held < end)) {
                self.add_run(agenda, w, *e, FileBlock(at))?;
            }
        }
        Ok(())
    }

    // Node j, which is block b: one that was held only where its content changes.
    fn add_node(
        &self,
        agenda: &mut Agenda,
        copy: &WorkingCopy,
        j: u8,
        b: DiskBlock,
    ) -> Result<(), Refusal>
        requires { IsNode (change_of self.now) j b.0 }
        ensures { Lists (content_by (working copy.now) self.now) agenda.old (ascending (nodes_from (working copy.now) self.now (j + 1)))
            → Told result (content_by (working copy.now) self.now) agenda.new (ascending (nodes_from (working copy.now) self.now j)) }
    {
        if usize::from(j) < self.draft.before {
            let new = node_content(self.draft.extents, j);
            return add_block(agenda, copy, b, Content::Node(j), &new);
        }
        agenda.insert(b, Content::Node(j))
    }

    // The nodes of a change, from the last to the first.
    fn add_nodes(&self, agenda: &mut Agenda, copy: &WorkingCopy) -> Result<(), Refusal>
        ensures { Lists (content_by (working copy.now) self.now) agenda.old (ascending (data_from (working copy.now) self.now 0))
            → Told result (content_by (working copy.now) self.now) agenda.new (ascending (nodes_from (working copy.now) self.now 0)) }
    {
        let nodes = self.draft.nodes.as_slice();
        for (j, b) in nodes.iter().enumerate().rev() {
            self.add_node(agenda, copy, j as u8, DiskBlock(*b))?;
        }
        Ok(())
    }

    // All that a change stages.
    fn add_all(&self, agenda: &mut Agenda, copy: &WorkingCopy) -> Result<(), Refusal>
        ensures { Lists (content_by (working copy.now) self.now) agenda.old []
            → Told result (content_by (working copy.now) self.now) agenda.new
            (ascending (change_stores (working copy.now) self.now.number.n (change_of self.now))) }
    {
        self.add_data(agenda)?;
        self.add_nodes(agenda, copy)?;
        add_record(agenda, copy, self.number, &self.inode)?;
        let b = DiskBlock(Limits::BITMAP_BLOCK);
        add_block(agenda, copy, b, Content::Bitmap, self.table)
    }
}

// Whether a content is one and the same whatever the block held: that of the bitmap, a node or a new data block.
fn is_made_anew(held: usize, content: Content) -> bool
    ensures { result ≡ true → (i : ℕ) (c : Change) (y z : List ℕ) → c.tree.held ≡ held → content_of i c content y ≡ content_of i c content z }
{
    match content {
        Content::Bitmap => true,
        Content::Record => false,
        Content::Node(_) => true,
        Content::Data(p) => held <= p.0 as usize,
    }
}

// The image of a block made ready for its content: it is loaded, unless that is made anew.
fn ready_image(image: &mut Image, held: usize, content: Content)
    ensures parts { Same image.old image.new }
    ensures numbers { session_of_image image.new ≡ session_of_image image.old }
    ensures bytes { (i : ℕ) (c : Change) → c.tree.held ≡ held
        → Ready (content_of i c content) (view (state_of_image image.old) image.old.block.0) (work_of_image image.old) (work_of_image image.new) image.old.place }
{
    if is_made_anew(held, content) {
        return;
    }
    image.load();
}

// The block of an image staged with its content, which is made in the image.
fn stage_image(image: &mut Image, plan: &Plan, content: Content)
    ensures parts { Same image.old image.new }
    ensures state { state_of_image image.new
        ≡ with_staging (state_of_image image.old) (stage (staged_of (state_of_image image.old))
        (put image.old.block.0 (content_of plan.now.number.n (change_of plan.now) content (view (state_of_image image.old) image.old.block.0)))) }
{
    ready_image(image, plan.data.held, content);
    let make = |block: &mut [u8; Limits::BLOCK_SIZE]| edit_block(block, plan, content);
    image.edit(make);
    image.add();
}

// A block staged with its content.
fn stage_block(images: &mut Staging, plan: &Plan, planned: Planned)
    requires { spot (numbers_lent images.old.lent.now) planned.block.0 < 32 }
    ensures parts { Held images.old images.new }
    ensures state { state_lent images.new.lent.now
        ≡ with_staging (state_lent images.old.lent.now) (stage (staged_of (state_lent images.old.lent.now))
        (put planned.block.0 (content_of plan.now.number.n (change_of plan.now) planned.content
        (view (state_lent images.old.lent.now) planned.block.0)))) }
{
    let block = planned.block;
    let place = images.lent.spot(block);
    let image = &mut Image {
        images,
        block,
        place,
    };
    stage_image(image, plan, planned.content);
}

// The block of record i staged in its image with these as the first bytes of the record.
pub fn stage_record(image: &mut Image, i: InodeNumber, new: RecordPrefix)
    requires { image.old.block.0 ≡ block_of_inode i.n }
    ensures parts { Same image.old image.new }
    ensures state { state_of_image image.new
        ≡ with_staging (state_of_image image.old) (stage (staged_of (state_of_image image.old))
        (put (block_of_inode i.n) (with_record i.n new.entry.bytes.now (view (state_of_image image.old) (block_of_inode i.n))))) }
{
    image.load();
    let lay = |block: &mut [u8; Limits::BLOCK_SIZE]| lay_record(block, i.n, new);
    image.edit(lay);
    image.add();
}

// The agenda staged, block by block.
fn stage_all(images: &mut Staging, plan: &Plan, agenda: &Agenda)
    requires { Stages plan.now (state_lent images.old.lent.now) agenda.now }
    ensures parts { Held images.old images.new }
    ensures state { state_lent images.new.lent.now
        ≡ with_staging (state_lent images.old.lent.now) (stage_each (staged_of (state_lent images.old.lent.now))
        (stores_by (content_by (view (state_lent images.old.lent.now)) plan.now) agenda.now)) }
{
    for e in agenda.as_slice() {
        stage_block(images, plan, *e);
    }
    images.lent.settle();
}

// A change of a file staged. 18 is tested before the first byte of the work space changes.
pub fn apply(images: &mut Staging, plan: &Plan) -> Result<(), Refusal>
    ensures parts { Held images.old images.new }
    ensures state { outcome (state_lent images.new.lent.now) (done_of result)
        ≡ settle (outcome (state_lent images.old.lent.now)) (staging (state_lent images.old.lent.now)
        (change_stores (view (state_lent images.old.lent.now)) plan.now.number.n (change_of plan.now))) }
{
    let mut agenda = Agenda::empty();
    plan.add_all(&mut agenda, &images.lent.copy())?;
    if !agenda.fits(images.lent.staged()) {
        return Err(Refusal::TooManyStaged);
    }
    stage_all(images, plan, &agenda);
    Ok(())
}
