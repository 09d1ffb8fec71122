// The layouts of all messages and headers as rows, from the tables of Kafka's guide, one field a line.
// A list of fields ends at `End`. Each message is followed by the lists of its elements. That the rows are the definition's layouts at every version is proved (proofs/Guide.antt).
#![tactic(auto)]

ghost use Rattle.std.specs.Prelude.{◌≡◌};
ghost use Rattle.layout_rows.specs.Rows.{row_at};

// What a field is, by the guide's names. `Level`: an isolation level, an INT8 that is 0 or 1. `Data`: the data of a tag.
#[derive(Clone, Copy)]
pub enum Kind {
    Int16,
    Int32,
    Int64,
    Boolean,
    Level,
    UnsignedVarint,
    String,
    NullableString,
    Records,
    Data,
}

// How the number of an array's elements is carried. A null array is read as empty (`Items`), or null is a value of its own (`NullableItems`). `Tags`: tagged fields, which have no null.
#[derive(Clone, Copy)]
pub enum Many {
    Items,
    NullableItems,
    Tags,
}

// A row of a list of fields. A list is known by the row where it begins, and not by a slice: `row_at` promises rows by their number, and the theorems of proofs/Guide.antt speak of that.
#[derive(Clone, Copy)]
pub enum Row {
    // kind, first and last version
    Field(Kind, u64, u64),
    // the same of a field that may be unset or absent; its default comes second: what each of its cells is where it is unset
    Maybe(Kind, u64, u64, u64),
    // how many, first and last version, the table of the elements, the row where their fields begin
    Array(Many, u64, u64, u64, usize),
    End,
}

// Where the list of each message begins, and the lists of its elements.
pub const API_VERSIONS_REQUEST: usize = 0;

const API_VERSIONS_TAGS: usize = 4;

pub const API_VERSIONS_RESPONSE: usize = 7;

const API_KEYS: usize = 12;

pub const METADATA_REQUEST: usize = 17;

const METADATA_REQUEST_TOPICS: usize = 20;

pub const METADATA_RESPONSE: usize = 22;

const METADATA_BROKERS: usize = 28;

const METADATA_TOPICS: usize = 33;

const METADATA_PARTITIONS: usize = 38;

const METADATA_NODES: usize = 44;

pub const FETCH_REQUEST: usize = 46;

const FETCH_REQUEST_TOPICS: usize = 53;

const FETCH_REQUEST_PARTITIONS: usize = 56;

pub const FETCH_RESPONSE: usize = 60;

const FETCH_TOPICS: usize = 63;

const FETCH_PARTITIONS: usize = 66;

const FETCH_ABORTED: usize = 73;

pub const REQUEST_HEADER: usize = 76;

const REQUEST_HEADER_TAGS: usize = 82;

pub const RESPONSE_HEADER: usize = 85;

const RESPONSE_HEADER_TAGS: usize = 88;

const ROW_COUNT: usize = 91;

const ROWS: [Row; ROW_COUNT] = [
    // ApiVersions request
    Row::Maybe(Kind::String, 0, 3, 3), // client_software_name
    Row::Maybe(Kind::String, 0, 3, 3), // client_software_version
    Row::Array(Many::Tags, 3, 3, 1, API_VERSIONS_TAGS), // _tagged_fields
    Row::End,
    // elements of _tagged_fields, in the request and in the response
    Row::Field(Kind::UnsignedVarint, 3, 3), // tag
    Row::Field(Kind::Data, 3, 3), // data
    Row::End,
    // ApiVersions response
    Row::Field(Kind::Int16, 0, 3), // error_code
    Row::Array(Many::Items, 0, 3, 1, API_KEYS), // api_keys
    Row::Maybe(Kind::Int32, 0, 1, 3), // throttle_time_ms
    Row::Array(Many::Tags, 3, 3, 2, API_VERSIONS_TAGS), // _tagged_fields
    Row::End,
    // elements of api_keys
    Row::Field(Kind::Int16, 0, 3), // api_key
    Row::Field(Kind::Int16, 0, 3), // min_version
    Row::Field(Kind::Int16, 0, 3), // max_version
    Row::Array(Many::Tags, 3, 3, 2, API_VERSIONS_TAGS), // _tagged_fields
    Row::End,
    // Metadata request
    Row::Array(Many::NullableItems, 0, 4, 1, METADATA_REQUEST_TOPICS), // topics
    Row::Maybe(Kind::Boolean, 1, 4, 4), // allow_auto_topic_creation
    Row::End,
    // elements of topics
    Row::Field(Kind::String, 0, 4), // name
    Row::End,
    // Metadata response
    Row::Maybe(Kind::Int32, 0, 3, 4), // throttle_time_ms
    Row::Array(Many::Items, 0, 4, 1, METADATA_BROKERS), // brokers
    Row::Field(Kind::NullableString, 2, 4), // cluster_id
    Row::Maybe(Kind::Int32, 0, 1, 4), // controller_id
    Row::Array(Many::Items, 0, 4, 2, METADATA_TOPICS), // topics
    Row::End,
    // elements of brokers
    Row::Field(Kind::Int32, 0, 4), // node_id
    Row::Field(Kind::String, 0, 4), // host
    Row::Field(Kind::Int32, 0, 4), // port
    Row::Field(Kind::NullableString, 1, 4), // rack
    Row::End,
    // elements of topics
    Row::Field(Kind::Int16, 0, 4), // error_code
    Row::Field(Kind::String, 0, 4), // name
    Row::Field(Kind::Boolean, 1, 4), // is_internal
    Row::Array(Many::Items, 0, 4, 3, METADATA_PARTITIONS), // partitions
    Row::End,
    // elements of partitions
    Row::Field(Kind::Int16, 0, 4), // error_code
    Row::Field(Kind::Int32, 0, 4), // partition_index
    Row::Field(Kind::Int32, 0, 4), // leader_id
    Row::Array(Many::NullableItems, 0, 4, 4, METADATA_NODES), // replica_nodes
    Row::Array(Many::NullableItems, 0, 4, 5, METADATA_NODES), // isr_nodes
    Row::End,
    // elements of replica_nodes and isr_nodes
    Row::Field(Kind::Int32, 0, 4), // broker id
    Row::End,
    // Fetch request
    Row::Field(Kind::Int32, 0, 4), // replica_id
    Row::Field(Kind::Int32, 0, 4), // max_wait_ms
    Row::Field(Kind::Int32, 0, 4), // min_bytes
    Row::Maybe(Kind::Int32, 2147483647, 3, 4), // max_bytes
    Row::Maybe(Kind::Level, 0, 4, 4), // isolation_level
    Row::Array(Many::Items, 0, 4, 1, FETCH_REQUEST_TOPICS), // topics
    Row::End,
    // elements of topics
    Row::Field(Kind::String, 0, 4), // topic
    Row::Array(Many::Items, 0, 4, 2, FETCH_REQUEST_PARTITIONS), // partitions
    Row::End,
    // elements of partitions
    Row::Field(Kind::Int32, 0, 4), // partition
    Row::Field(Kind::Int64, 0, 4), // fetch_offset
    Row::Field(Kind::Int32, 0, 4), // partition_max_bytes
    Row::End,
    // Fetch response
    Row::Maybe(Kind::Int32, 0, 1, 4), // throttle_time_ms
    Row::Array(Many::Items, 0, 4, 1, FETCH_TOPICS), // responses
    Row::End,
    // elements of responses
    Row::Field(Kind::String, 0, 4), // topic
    Row::Array(Many::Items, 0, 4, 2, FETCH_PARTITIONS), // partitions
    Row::End,
    // elements of partitions
    Row::Field(Kind::Int32, 0, 4), // partition_index
    Row::Field(Kind::Int16, 0, 4), // error_code
    Row::Field(Kind::Int64, 0, 4), // high_watermark
    Row::Field(Kind::Int64, 4, 4), // last_stable_offset
    Row::Array(Many::Items, 4, 4, 3, FETCH_ABORTED), // aborted_transactions
    Row::Field(Kind::Records, 0, 4), // records
    Row::End,
    // elements of aborted_transactions
    Row::Field(Kind::Int64, 4, 4), // producer_id
    Row::Field(Kind::Int64, 4, 4), // first_offset
    Row::End,
    // request header
    Row::Field(Kind::Int16, 0, 2), // request_api_key
    Row::Field(Kind::Int16, 0, 2), // request_api_version
    Row::Field(Kind::Int32, 0, 2), // correlation_id
    Row::Field(Kind::NullableString, 1, 2), // client_id
    Row::Array(Many::Tags, 2, 2, 1, REQUEST_HEADER_TAGS), // _tagged_fields
    Row::End,
    // elements of _tagged_fields
    Row::Field(Kind::UnsignedVarint, 2, 2), // tag
    Row::Field(Kind::Data, 2, 2), // data
    Row::End,
    // response header
    Row::Field(Kind::Int32, 0, 1), // correlation_id
    Row::Array(Many::Tags, 1, 1, 1, RESPONSE_HEADER_TAGS), // _tagged_fields
    Row::End,
    // elements of _tagged_fields
    Row::Field(Kind::UnsignedVarint, 1, 1), // tag
    Row::Field(Kind::Data, 1, 1), // data
    Row::End,
];

// Row i; `End` after the last row.
#[tactic(auto, unfolding(crate::specs::Rows::table))]
pub fn row_at(i: usize) -> Row
    ensures { result ≡ row_at i }
{
    ROWS.get(i).copied().unwrap_or(Row::End)
}
