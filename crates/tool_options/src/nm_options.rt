//! The options of nm.

/// Which symbols of a symbol table nm shows, and in which order. (nm(1))
///
/// With no option all symbols are shown in the order of their names, compared by bytes; symbols of one name are in
/// the order of the table.
#[derive(Clone, Copy, Debug, Default, PartialEq, Eq)]
pub struct NmOptions {
    /// `-g`: external symbols alone.
    pub external: bool,
    /// `-n`: by value, then by name.
    pub by_value: bool,
    /// `-o`: the file's path comes before each line, and not above the lines.
    pub each_line: bool,
    /// `-p`: in the order of the table, whatever `by_value` and `reverse` say.
    pub table_order: bool,
    /// `-r`: the list from its end to its beginning.
    pub reverse: bool,
    /// `-u`: undefined symbols alone, those of letter u or U.
    pub undefined: bool,
}
