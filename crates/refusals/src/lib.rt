// The refusals of documents 01 and 02, one for each sentence, and their numbers: what every call answers where it does
// not do what it was asked.
// Document 01: "A refusal yields its number only, and every lent buffer keeps its contents"
#![tactic(auto)]

ghost use Rattle.std.specs.Prelude.{◌≡◌};
ghost use Rattle.refusals.specs.Numbers.{number_of};

// Why a call refuses what it is handed, in the order in which the sentences are tried.
#[derive(Clone, Copy, Debug, PartialEq, Eq)]
pub enum Refusal {
    // 1: "The text exceeds 16,384 bytes or is not of the form above."
    PlanText,
    // 2: "There are not 1 to 8 slots, 1 to 64 processes, at most 6 conditions, at most 128 edges."
    Counts,
    // 3: "`byte` is outside 1 to 1,000, slot or edge bytes outside 1 to 64, or ticks outside 1 to 100,000."
    Sizes,
    // 4: "A node number is not below the slot count, or two slots share a node."
    Nodes,
    // 5: "A condition names no process, or one already named."
    Deciders,
    // 6: "An edge names no process, or from is not below to."
    EdgeEnds,
    // 7: "Two edges share both from and to."
    TwinEdges,
    // 8: "A `when` names a condition its from process does not decide."
    Whens,
    // 9: "A message between nodes is longer than its sender's slot."
    LongMessage,
    // 10: "The planner's entries need more words, or a written text more bytes, than lent."
    LentRoom,
    // 11: "Its frames need more words than lent."
    FrameRoom,
    // 12: "A checked table's words are not a multiple of five."
    WordCount,
    // 13: "An entry has no such row, is a local edge's, has known bits without condition, value bits outside the known,
    // tick above 999,999,999, place above 63, or a process's place not 0."
    EntryForm,
    // 14: "In some combination a due row has not exactly one entry whose column is met, or another row has one."
    DueRows,
    // 15: "In some combination a met column uses a value not known by its tick."
    UnknownValue,
    // 16: "A process starts before a carrying edge has delivered, or an item before its sender's end."
    EarlyStart,
    // 17: "An item's tick is not a beginning of its sender's slot."
    OffSlot,
    // 18: "Two processes overlap on a node."
    Overlap,
    // 19: "Two items of a frame share a byte, or one passes the slot's last byte."
    SharedByte,
    // 20: "The stated delay is not the greatest delay."
    StatedDelay,
    // 21, of document 02: the listing is not of its form.
    ListingText,
    // 22, of document 02: the listing's frames or its passed lines are not those of its entries.
    ListedFrames,
}

impl Refusal {
    // The number that a refusal yields, 1 to 22.
    pub fn number(self) -> u32
        ensures { result ≡ number_of self }
    {
        self as u32 + 1
    }
}
