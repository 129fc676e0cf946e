// The limits of documents 01 and 02 by name, and what follows from them, for code; specs/Limits.antt has the same names
// for contracts, and those that only contracts need.
// Document 01: "There are not 1 to 8 slots, 1 to 64 processes, at most 6 conditions, at most 128 edges."
#![tactic(auto)]

// "There are not 1 to 8 slots": the most slots that a plan has.
pub const SLOTS: usize = 8;
// Each slot is another node's (refusal 4): the most nodes.
pub const NODES: usize = SLOTS;
// A number that no node has.
pub const NONODE: u32 = 8;
// "1 to 64 processes".
pub const PROCESSES: usize = 64;
// "at most 6 conditions".
pub const CONDITIONS: usize = 6;
// "at most 128 edges".
pub const EDGES: usize = 128;
// "A combination gives every condition true or false": 2 to the 6 of them.
pub const COMBINATIONS: usize = 64;
// "Rows: processes, then edges, then conditions": the row of condition 0 is at most this.
pub const CONDITIONROW: usize = PROCESSES + EDGES;
// The most rows.
pub const ROWS: usize = CONDITIONROW + CONDITIONS;
// Where the entries of each row end in an array, and where those of row 0 begin.
pub const ROWENDS: usize = ROWS + 1;
// Where each group of an array begins, of at most 64 groups, and where the last one ends.
pub const STARTS: usize = PROCESSES + 1;
// The most entries of a start table: one for each combination and row.
pub const ENTRIES: usize = COMBINATIONS * ROWS;
// "five to an entry": their words.
pub const TABLEWORDS: usize = 5 * ENTRIES;
// The most frames of a frame list: one for each combination and item.
pub const FRAMES: usize = COMBINATIONS * (EDGES + CONDITIONS);
// "The frame list has three words for each slot occurrence": their words.
pub const FRAMEWORDS: usize = 3 * FRAMES;
// "`byte` is outside 1 to 1,000": the most ticks that a byte lasts.
pub const BYTE: u32 = 1000;
// "slot or edge bytes outside 1 to 64": the most bytes of a slot or of a message.
pub const BYTES: u32 = 64;
// "ticks outside 1 to 100,000": the most ticks of a process.
pub const TICKS: u32 = 100000;
// "`(head 0)`, 0 to 16 bytes" (document 02, point 1): the most bytes that a frame has beside its data.
pub const HEAD: u32 = 16;
// "tick above 999,999,999": the last tick that a table can hold.
pub const LASTTICK: u32 = 999999999;
// "place above 63": the last byte of a frame that an item can begin at.
pub const LASTPLACE: u32 = 63;
// A clock is a tick plus 1: the last one at which planning looks for an event. No delay reaches it.
pub const LASTCLOCK: u32 = LASTTICK + 1;
// A clock that stands for none: no event is left, no process ends, a value never arrives.
pub const NEVER: u32 = 2000000000;
// Pass-over counts noted by condition and node, as the condition's value becomes known.
pub const NOTED: usize = CONDITIONS * NODES;
// What is noted of a combination: these, and its last counts by node.
pub const COMBINATIONNOTES: usize = NOTED + NODES;
// The same of all combinations.
pub const NOTES: usize = COMBINATIONS * COMBINATIONNOTES;
// The most words of a plan's totals: of the table, of the frame list, the worst delay, and the count of each node.
pub const TOTALS: usize = 3 + NODES;
// "The text exceeds 16,384 bytes": the most bytes of a plan text.
pub const TEXT: usize = 16384;
// "lending 3,000 entries": the most entries of a printed table.
pub const PRINTEDENTRIES: usize = 3000;
// "and 2,000 frames": the most frames of a printed frame list.
pub const PRINTEDFRAMES: usize = 2000;
// The words that the planning program lends for the table.
pub const PRINTEDWORDS: usize = 5 * PRINTEDENTRIES;
// The words that it lends for the frame list.
pub const PRINTEDFRAMEWORDS: usize = 3 * PRINTEDFRAMES;
// The words that hold the frame list of as many entries: an entry is in one frame at most.
pub const ENTRYFRAMEWORDS: usize = 3 * PRINTEDENTRIES;
// The bytes that it lends for a listing: no listing of as many entries has more. A delay has at most nine digits, a
// count of a node five; an entry's line has at most 104 bytes, a frame's 38, and there are no more frames than entries.
pub const LISTING: usize = 18 + 24 * NODES + (104 + 38) * PRINTEDENTRIES;
// "over 3,000 entries or 2,000 frames" (document 02, point 2): the most bytes of a listing that is of its form: a delay
// line, a passed line for each node (point 3), and the longest lines of an entry and of a frame, with nine digits
// wherever they may stand.
pub const LISTED: usize = 18 + 28 * NODES + 111 * PRINTEDENTRIES + 53 * PRINTEDFRAMES;
// "A program reads a plan up to the first empty line, then a listing": the bytes that it lends for both, the line feed
// of the empty line, and one byte more, so that a longer input is refused as its beginning is.
pub const INPUT: usize = TEXT + 1 + LISTED + 1;
// The bytes that it lends for its answer: the line of a refusal of ten digits is the longest that a function can write.
pub const VERDICT: usize = 21;
// "A list of at most 8 windows" (document 02, point 5).
pub const WINDOWS: usize = 8;
// A window in memory: plan, first month and day, last month and day, first and last minute.
pub const WINDOWNUMBERS: usize = 7;
// The numbers of as many windows.
pub const WINDOWSNUMBERS: usize = WINDOWS * WINDOWNUMBERS;
// "a span of minutes of the day, [..] 0 to 1,440": how many a day has.
pub const DAYMINUTES: u32 = 1440;
// The most bytes of a text of a query and as many windows, with nine digits wherever they may stand.
pub const SEASON: usize = 59 + 18 + 141 * WINDOWS;
// The bytes that the program that tells which plan applies lends for it, and one byte more, so that a longer text is
// refused as its beginning is.
pub const SEASONINPUT: usize = SEASON + 1;
// The bytes that the program that tells when a change takes effect lends: the line of a tick, and an input as above.
pub const CHANGEINPUT: usize = 17 + INPUT;
// The bytes that it lends for its answer: a tick and a cycle of ten digits.
pub const CHANGE: usize = 44;
