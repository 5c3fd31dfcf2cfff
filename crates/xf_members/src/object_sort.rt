//! The objects of a board, and which members each sort of them has.
ghost use Rattle.std.specs.Prelude.{◌≡◌};
ghost use Rattle.xf_members.specs.Members.{chart_kind_of, column_word_of, is_member, is_one_of, members_of_charts, members_of_kind};

/// The kinds of charts.
#[derive(Clone, Copy, Debug, PartialEq, Eq)]
pub enum ChartKind {
    Bar,
    Line,
    Row,
    Heat,
    Count,
    Number,
    Table,
}

/// The words for kinds of columns.
#[derive(Clone, Copy, Debug, PartialEq, Eq)]
pub enum ColumnWord {
    Int,
    Fixed,
    Date,
    Text,
    Tags,
}

/// The sorts of objects.
#[derive(Clone, Copy, Debug, PartialEq, Eq)]
pub enum ObjectSort {
    Board,
    Column,
    Dimension,
    Group,
    Whole,
    Chart(ChartKind),
}

/// Whether an object of a sort has a member of a name.
pub fn is_member(sort: ObjectSort, name: &str) -> bool
    ensures { result ≡ is_member sort name.now }
{
    match sort {
        ObjectSort::Board => matches!(
            name,
            "version"
                | "title"
                | "columns"
                | "dimensions"
                | "groups"
                | "wholes"
                | "charts"
                | "colours"
        ),
        ObjectSort::Column => {
            matches!(name, "name" | "kind" | "decimals" | "separator" | "blank")
        }
        ObjectSort::Dimension => matches!(name, "name" | "from"),
        ObjectSort::Group => matches!(name, "name" | "of" | "round" | "reduce" | "order"),
        ObjectSort::Whole => matches!(name, "name" | "reduce"),
        ObjectSort::Chart(kind) => is_member_of_charts(name) || is_member_of_kind(kind, name),
    }
}

/// Whether every chart has a member of a name.
fn is_member_of_charts(name: &str) -> bool
    ensures { result ≡ is_one_of members_of_charts name.now }
{
    matches!(name, "kind" | "title" | "width" | "height")
}

/// Whether charts of a kind have a member of a name.
fn is_member_of_kind(kind: ChartKind, name: &str) -> bool
    ensures { result ≡ is_one_of (members_of_kind kind) name.now }
{
    match kind {
        ChartKind::Bar | ChartKind::Line => matches!(name, "group" | "field" | "fill"),
        ChartKind::Row => matches!(name, "group" | "field" | "fill" | "cap" | "others"),
        ChartKind::Heat => matches!(name, "group" | "field"),
        ChartKind::Count => false,
        ChartKind::Number => matches!(name, "whole" | "field"),
        ChartKind::Table => matches!(name, "dimension" | "columns" | "size" | "order"),
    }
}

/// The kind of column that a word says.
pub fn column_word_of(word: &str) -> Option<ColumnWord>
    ensures { result ≡ column_word_of word.now }
{
    match word {
        "int" => Some(ColumnWord::Int),
        "fixed" => Some(ColumnWord::Fixed),
        "date" => Some(ColumnWord::Date),
        "text" => Some(ColumnWord::Text),
        "tags" => Some(ColumnWord::Tags),
        _ => None,
    }
}

/// The kind of chart that a word says.
pub fn chart_kind_of(word: &str) -> Option<ChartKind>
    ensures { result ≡ chart_kind_of word.now }
{
    match word {
        "bar" => Some(ChartKind::Bar),
        "line" => Some(ChartKind::Line),
        "row" => Some(ChartKind::Row),
        "heat" => Some(ChartKind::Heat),
        "count" => Some(ChartKind::Count),
        "number" => Some(ChartKind::Number),
        "table" => Some(ChartKind::Table),
        _ => None,
    }
}
