//! The numbers of the rules, and the constants of the code that definitions cite.
//!
//! Theorems, no code. Definitions name lengths, places and letters by the code's own constants, so that each stands once; here each is the number that docs/RULES.md, docs/TABLES.md and docs/GUESTS.md give. A constant with another number is refused here.
#![tactic(auto)]

ghost use Rattle.std.specs.Prelude.{◌≡◌, ◌||◌, if◌then◌else◌, nat_lt, List, ℕ, ◌+◌, ◌*◌, length, None};
ghost use Rattle.terms.specs.declared.letters.TheConstants.{BOND, UNBOND, ENTRY};
ghost use Rattle.store.specs.Table as store;
ghost use Rattle.store.specs.declared.lengths.TheConstants as lengths;
ghost use Rattle.store.specs.declared.places.TheConstants as places;
ghost use Rattle.queues.specs.Words as queue;
ghost use Rattle.queues.specs.declared.TheConstants as queue_word;
ghost use Rattle.ports.specs.declared.places.TheConstants as port;
ghost use Rattle.chain_committees.specs.declared.cache.TheConstants as cache;
ghost use Rattle.words.specs.Lengths as words;
ghost use Rattle.words.specs.declared.places.TheConstants as word;
ghost use Rattle.framing.specs.declared.TheConstants.{LONGEST, LONGEST_ENDED};
ghost use Rattle.storing.specs.declared.stored.TheConstants as stored;
ghost use Rattle.storing.specs.declared.signed.TheConstants as signed;
ghost use Rattle.records.specs.Records.{record_in, is_damaged, by_fields};
ghost use Rattle.records.specs.Fields.{fields_of};

/// The words of a table: 272 for each row, in it 16 before its records and 16 for each, a transaction in three; in row 0 eight words of each guest's port and 24 of its queue. docs/TABLES.md, "Layout".
pub fn table_words()
    ensures row { (store.row_length ≡ 272) × (store.head_length ≡ 16) × (store.record_length ≡ 16)
        × (lengths.TRANSACTION ≡ 3) }
    ensures guest { (lengths.PORT ≡ 8) × (lengths.QUEUE ≡ 24) × (lengths.GUEST ≡ 32) }
    ensures places { (places.ROW_ENDORSED ≡ 1) × (places.ROW_BLOCK ≡ 2) × (places.FIRST_PORT ≡ 16)
        × (places.FIRST_QUEUE ≡ 24) }
    ensures record_places { (places.RECORD_PREVIOUS ≡ 0) × (places.RECORD_COUNT ≡ 1)
        × (places.RECORD_BLOCK ≡ 2) × (places.RECORD_ENDORSERS ≡ 3)
        × (places.RECORD_TRANSACTIONS ≡ 4) }
    ensures queues { (queue.guest_count ≡ 8) × (queue.queue_length ≡ 8) × (queue_word.SERVED ≡ 0)
        × (queue_word.WAITING ≡ 1) }
{}

/// The words that a host lends: how many of each kind, and where what stands in a state, a body, a proposal and an effect. docs/TABLES.md, "The state".
pub fn lent_words()
    ensures lengths { (words.state_length ≡ 39) × (words.sheet_length ≡ 40)
        × (words.body_length ≡ 14) × (words.proposal_length ≡ 16) × (words.certificate_length ≡ 17)
        × (words.held_length ≡ 18) × (words.committee_length ≡ 16) × (words.effect_length ≡ 33)
        × (words.transaction_length ≡ 3) }
    ensures settings { (word.STATE_OWN ≡ 0) × (word.STATE_LOOKBACK ≡ 1) × (word.STATE_CEILING ≡ 2)
        × (word.STATE_ALLOWANCE ≡ 3) × (word.STATE_WEIGHTS ≡ 4) × (word.STATE_MARGIN ≡ 37)
        × (word.STATE_RIGHTS ≡ 38) }
    ensures numbers { (word.STATE_ROUND ≡ 20) × (word.STATE_PROPOSED ≡ 21)
        × (word.STATE_BLOCKS ≡ 22) × (word.STATE_BODY ≡ 23) }
    ensures body { (word.BODY_COUNT ≡ 1) × (word.BODY_TRANSACTIONS ≡ 2) }
    ensures proposal { (word.PROPOSAL_AUTHOR ≡ 0) × (word.PROPOSAL_ROUND ≡ 1)
        × (word.PROPOSAL_BODY ≡ 2) }
    ensures effect { (word.EFFECT_BEFORE ≡ 0) × (word.EFFECT_AFTER ≡ 16)
        × (word.EFFECT_LARGEST ≡ 32) }
{}

/// The words of a guest's port, and the offsets of its registers. docs/GUESTS.md, "Serial port".
pub fn port_words()
    ensures words { (port.PORT_PLACE ≡ 0) × (port.PORT_BYTE ≡ 1) × (port.PORT_ENABLE ≡ 2)
        × (port.PORT_LINE ≡ 3) × (port.PORT_MODEM ≡ 4) × (port.PORT_SCRATCH ≡ 5)
        × (port.PORT_DIVISOR_LOW ≡ 6) × (port.PORT_DIVISOR_HIGH ≡ 7) }
    ensures offsets { (port.OFFSET_DATA ≡ 0) × (port.OFFSET_ENABLE ≡ 1)
        × (port.OFFSET_INTERRUPT ≡ 2) × (port.OFFSET_LINE ≡ 3) × (port.OFFSET_MODEM ≡ 4)
        × (port.OFFSET_STATUS ≡ 5) × (port.OFFSET_SCRATCH ≡ 7) }
{}

/// What records and listings are made of: "Kind is B, U or E", and a record of 1,024 bytes with its CRLF at most. docs/RULES.md, "Records".
pub fn record_bytes()
    ensures letters { (BOND ≡ 66) × (UNBOND ≡ 85) × (ENTRY ≡ 69) }
    ensures longest { (LONGEST ≡ 1022) × (LONGEST_ENDED ≡ 1024) }
    ensures readable { (s : List ℕ)
        → record_in s ≡ (if nat_lt 1022 (length s) || is_damaged s then None
        else by_fields (fields_of s)) }
{}

/// A cached committee's words: its round, and sixteen weights.
pub fn cache_words()
    ensures { (cache.ROUNDS ≡ 1) × (cache.COMMITTEE ≡ 16) }
{}

/// What stands at the head of a stored member, and of what is signed: marks of four letters, the lowest byte first, the format, and how many words each part has. docs/TABLES.md, "The stored form"; docs/HOSTS.md, "What is signed, to the byte".
pub fn stored_and_signed()
    ensures stored { (stored.MARK ≡ 70 + 76 * 256 + 83 * 65536 + 49 * 16777216)
        × (stored.FORMAT ≡ 3) }
    ensures head { (stored.HEAD ≡ 4) × (stored.HEAD_MARK ≡ 0) × (stored.HEAD_FORMAT ≡ 1)
        × (stored.HEAD_RUN_LOW ≡ 2) × (stored.HEAD_RUN_HIGH ≡ 3) × (stored.DIGEST ≡ 32) }
    ensures signed { (signed.PROPOSAL_MARK ≡ 70 + 76 * 256 + 80 * 65536 + 49 * 16777216)
        × (signed.ENDORSEMENT_MARK ≡ 70 + 76 * 256 + 69 * 65536 + 49 * 16777216)
        × (signed.CERTIFICATE_MARK ≡ 70 + 76 * 256 + 67 * 65536 + 49 * 16777216) }
    ensures message { (signed.SETTINGS ≡ 19) × (signed.MESSAGE_HEAD ≡ 9) }
{}
