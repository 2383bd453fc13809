//! The small setup, for the tests: the files of `examples/small`, word for word, and its
//! classification with a key range. `examples/small` has the same bytes once more, since the gate
//! takes no links and runs tests in an empty folder: none compares the two.
#![tactic(auto)]

/// SEX, AGE and AREA.
pub const CLASSES: &[u8] = b"variable,code,label\nSEX,1,Male\nSEX,2,Female\nAGE,0-15,Under 16\n\
    AGE,16-64,Working age\nAGE,65+,65 and over\nAREA,E1,\"North, rural\"\nAREA,E2,South\n";

/// The same with the key range 4096.
pub const WIDE_CLASSES: &[u8] = b"variable,code,label\n*,keys,4096\nSEX,1,Male\nSEX,2,Female\n\
    AGE,0-15,Under 16\nAGE,16-64,Working age\nAGE,65+,65 and over\n\
    AREA,E1,\"North, rural\"\nAREA,E2,South\n";

/// AGE2, a recode of AGE.
pub const RECODES: &[u8] = b"recode,variable,code,group\nAGE2,AGE,0-15,young\n\
    AGE2,AGE,16-64,old\nAGE2,AGE,65+,old\n";

/// Five pvalues.
pub const PTABLE: &[u8] = b"pcv,ckey,pvalue\n3,64,-2\n1,7,1\n4,71,2\n3,127,3\n2,27,-1\n";

/// Four persons.
pub const PEOPLE: &[u8] = b"person,record_key,SEX,AGE,AREA\n101,200,1,0-15,E1\n\
    102,100,1,16-64,E1\n103,20,1,65+,E2\n104,7,2,16-64,E2\n";

/// Two dwellings.
pub const DWELLINGS: &[u8] = b"dwelling,dwelling_key\n1,50\n2,60\n";

/// Two persons in each of them.
pub const LINKS: &[u8] = b"person,dwelling\n101,1\n102,1\n103,2\n104,2\n";
