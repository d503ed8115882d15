//! An edge table with the columns of PostGIS's `edge_data`, cut at each of its bytes.

use crate::{CsvFault, read_edges};
use std::alloc::Global;
use std::test::Fail;

const TABLE: &str = "\
edge_id,start_node,end_node,next_left_edge,abs_next_left_edge,\"next_right_edge\",abs_next_right_edge,left_face,\
right_face
12,1,2,23,23,-31,31,10,0
23,2,3,31,31,\"-12\",12,10,\"204\"
31,3,1,12,12,-23,23,10,30
2147483647,\"4\",4,7,7,-7,7,0,2147483647
";

/// What `bench/cut_tables.py` prints: of each run of like cuts, the length of its first and what is said of it, as how
/// many rows there are and the last field of the last, or as the refusal.
const RUNS: &str = "\
0: ColumnMissing { table: Edge, column: EdgeId }
7: ColumnMissing { table: Edge, column: StartNode }
18: ColumnMissing { table: Edge, column: EndNode }
27: ColumnMissing { table: Edge, column: NextLeftEdge }
42: ColumnMissing { table: Edge, column: NextRightEdge }
78: ColumnMissing { table: Edge, column: LeftFace }
109: ColumnMissing { table: Edge, column: RightFace }
120: 0 rows to 0
122: RowShape { table: Edge, row: 1, fields: 1, wanted: 9 }
124: RowShape { table: Edge, row: 1, fields: 2, wanted: 9 }
126: RowShape { table: Edge, row: 1, fields: 3, wanted: 9 }
128: RowShape { table: Edge, row: 1, fields: 4, wanted: 9 }
131: RowShape { table: Edge, row: 1, fields: 5, wanted: 9 }
134: RowShape { table: Edge, row: 1, fields: 6, wanted: 9 }
138: RowShape { table: Edge, row: 1, fields: 7, wanted: 9 }
141: RowShape { table: Edge, row: 1, fields: 8, wanted: 9 }
144: EmptyNumber { table: Edge, row: 1, column: RightFace }
145: 1 rows to 0
147: RowShape { table: Edge, row: 2, fields: 1, wanted: 9 }
149: RowShape { table: Edge, row: 2, fields: 2, wanted: 9 }
151: RowShape { table: Edge, row: 2, fields: 3, wanted: 9 }
153: RowShape { table: Edge, row: 2, fields: 4, wanted: 9 }
156: RowShape { table: Edge, row: 2, fields: 5, wanted: 9 }
159: RowShape { table: Edge, row: 2, fields: 6, wanted: 9 }
165: RowShape { table: Edge, row: 2, fields: 7, wanted: 9 }
168: RowShape { table: Edge, row: 2, fields: 8, wanted: 9 }
171: EmptyNumber { table: Edge, row: 2, column: RightFace }
173: 2 rows to 2
174: 2 rows to 20
175: 2 rows to 204
178: RowShape { table: Edge, row: 3, fields: 1, wanted: 9 }
180: RowShape { table: Edge, row: 3, fields: 2, wanted: 9 }
182: RowShape { table: Edge, row: 3, fields: 3, wanted: 9 }
184: RowShape { table: Edge, row: 3, fields: 4, wanted: 9 }
187: RowShape { table: Edge, row: 3, fields: 5, wanted: 9 }
190: RowShape { table: Edge, row: 3, fields: 6, wanted: 9 }
194: RowShape { table: Edge, row: 3, fields: 7, wanted: 9 }
197: RowShape { table: Edge, row: 3, fields: 8, wanted: 9 }
200: EmptyNumber { table: Edge, row: 3, column: RightFace }
201: 3 rows to 3
202: 3 rows to 30
204: RowShape { table: Edge, row: 4, fields: 1, wanted: 9 }
214: RowShape { table: Edge, row: 4, fields: 2, wanted: 9 }
218: RowShape { table: Edge, row: 4, fields: 3, wanted: 9 }
220: RowShape { table: Edge, row: 4, fields: 4, wanted: 9 }
222: RowShape { table: Edge, row: 4, fields: 5, wanted: 9 }
224: RowShape { table: Edge, row: 4, fields: 6, wanted: 9 }
227: RowShape { table: Edge, row: 4, fields: 7, wanted: 9 }
229: RowShape { table: Edge, row: 4, fields: 8, wanted: 9 }
231: EmptyNumber { table: Edge, row: 4, column: RightFace }
232: 4 rows to 2
233: 4 rows to 21
234: 4 rows to 214
235: 4 rows to 2147
236: 4 rows to 21474
237: 4 rows to 214748
238: 4 rows to 2147483
239: 4 rows to 21474836
240: 4 rows to 214748364
241: 4 rows to 2147483647
";

/// What is said of a table.
fn told(alloc: Global, table: &[u8]) -> Result<String, Fail> {
    match read_edges(alloc, table) {
        Ok(rows) => {
            let count = rows.len();
            let last = if count == 0 {
                0
            } else {
                rows.row(count - 1).right_face
            };
            Ok(format!(in alloc; "{count} rows to {last}")?)
        }
        Err(CsvFault::Refused(why)) => Ok(format!(in alloc; "{why:?}")?),
        Err(CsvFault::Memory) => Err(Fail::new("want of memory")),
    }
}

#[test]
fn each_cut_is_told(rt: HostRuntime) -> Result<(), Fail> {
    let alloc = rt.alloc();
    let table = TABLE.as_bytes();
    let mut runs = String::new(alloc);
    let mut before = String::new(alloc);
    for len in 0..=table.len() {
        let said = told(alloc, &table[..len])?;
        if said.as_str() != before.as_str() {
            runs.push_str(format!(in alloc; "{len}: {said}\n")?.as_str())?;
            before = said;
        }
    }
    assert_eq!(rt; runs.as_str(), RUNS);
    Ok(())
}
